// The terms of an atom or a comparison that was read.
ghost use Rattle.std.specs.Prelude.{◌≡◌, true, ◌≤◌, ◌<◌, ◌+◌, ◌*◌, ◌^◌};
ghost use Rattle.model.specs.Lists.{all};
ghost use Rattle.model.specs.Reading.{places, in_scope};

// The n terms from an index on, at most six: constants, and variables of the sixteen.
#[derive(Clone, Copy)]
pub struct Terms<'a> {
    pub words: &'a [i32],
    pub first: usize,
    pub n: usize,
    pub ghost few: { n ≤ 6 },
    pub ghost near: { first + 2 * n < 2 ^ 64 },
    pub ghost known: { all (in_scope words.now 16) (places first n) ≡ true },
}
