// The room of a walk that lists: what of scratch is still read, and what is free.
ghost use Rattle.std.specs.Prelude.{◌+◌, ◌≤◌};

// The list handed to a node, the first place behind all lists that are still read, the places counted so far, and how many
// there are. Document 01 counts a place for each entry of each list; a list that is read no more makes room for the next.
// That scratch has the places is asked beside it: scratch is lent from call to call, and a room is copied.
#[derive(Clone, Copy)]
pub struct Room {
    pub from: usize,
    pub count: usize,
    pub base: usize,
    pub used: usize,
    pub limit: usize,
    pub ghost before: { from + count ≤ base },
    pub ghost counted: { base ≤ used },
    pub ghost within: { used ≤ limit },
}

impl Room {
    ghost use Rattle.std.specs.Prelude.{◌≡◌};
    ghost use Rattle.listing.specs.Restrictions as R;

    // The room after a list of so many entries was made in its first free places.
    pub(crate) fn filled(self, made: usize) -> Room
        requires { self.used + made ≤ self.limit }
        ensures { R.Filled self made result }
    {
        Room {
            from: self.base,
            count: made,
            base: self.base + made,
            used: self.used + made,
            limit: self.limit,
        }
    }

    // The room after a second list of the same entries was counted.
    pub(crate) fn counted(self) -> Room
        requires { self.used + self.count ≤ self.limit }
        ensures { R.Counted self result }
    {
        Room {
            from: self.from,
            count: self.count,
            base: self.base,
            used: self.used + self.count,
            limit: self.limit,
        }
    }

    // The room for the next branch, once a branch's list stands in the first free places.
    pub(crate) fn next_branch(self, to: Room) -> Room
        requires { (self.base ≤ to.from) × (to.limit ≡ self.limit) }
        ensures { R.NextBranch self to result }
    {
        Room {
            from: self.from,
            count: self.count,
            base: self.base + to.count,
            used: to.used,
            limit: self.limit,
        }
    }

    // The room with the lists of all branches as one list.
    pub(crate) fn joined(self, base: usize, made: usize) -> Room
        requires { (base + made ≤ self.base) × (self.used + made ≤ self.limit) }
        ensures { R.Joined self base made result }
    {
        Room {
            from: base,
            count: made,
            base: self.base,
            used: self.used + made,
            limit: self.limit,
        }
    }
}

// The room with the list that a node made, and the index behind the node. Where the places ran out there is none.
#[derive(Clone, Copy)]
pub struct Made {
    pub room: Room,
    pub next: usize,
}
