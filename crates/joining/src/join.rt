// The join rule in a buffer: all-of, any-of and both quantifiers share it. The parts stand at the front of the buffer,
// without a header, and the header is put in front of them at the end, where there are two parts or more.
ghost use Rattle.std.specs.Prelude.{◌≡◌, Bool, cond, ◌∷◌, ℕ, ◌+◌, ◌≤◌, length, take, pos};
ghost use Rattle.model.specs.Words as W;
ghost use Rattle.model.specs.Tree.{Trees, nil};
ghost use Rattle.model.specs.Joining.{joined};
ghost use Rattle.words.specs.Laying.{laid};
ghost use Rattle.joining.specs.Answer.{Answers};
ghost use Rattle.joining.specs.declared.answer.Reduced.TheVariants as R;
ghost use Rattle.joining.specs.Join.{Joining, Adding, added};

use crate::answer::Reduced;
use words::moving;

// The tag of an all-of (true), or of an any-of.
fn tag(kind: bool) -> usize
    ensures { result ≡ cond kind 6 7 }
{
    if kind { 6 } else { 7 }
}

// The word at an index is the tag of an all-of (true), or of an any-of.
fn is_join(out: &[i32], at: usize, kind: bool) -> bool
    ensures { result ≡ W.equal (W.word out.now at) (pos (cond kind 6 7)) }
{
    words::is(out, at, tag(kind))
}

// A header is put in front of the first n words.
fn head(out: &mut [i32], kind: bool, parts: usize, n: usize)
    requires { (n + 2 ≤ length out.old) × (parts ≤ 1048576) }
    ensures { out.new
        ≡ laid out.old 0 (pos (cond kind 6 7) ∷ pos parts ∷ take n out.old) }
{
    moving::right(out, n);
    out[1] = parts as i32;
    out[0] = tag(kind) as i32;
}

// How a join stands after some children, each state before those that outweigh it: its parts fit so far; they don't; a child
// decides it; the places ran out.
#[derive(Clone, Copy, PartialEq, Eq, PartialOrd, Ord)]
pub enum State {
    Open,
    Long,
    Decided,
    Short,
}

// A join of a kind (true: all-of) after some children: how it stands, how many parts there are, and the words that they take
// at the front.
#[derive(Clone, Copy)]
pub struct Join {
    pub kind: bool,
    pub state: State,
    pub parts: usize,
    pub words: usize,
}

impl Join {
    // No child so far.
    pub fn new(kind: bool) -> Join
        ensures { (places : ℕ) (out : W.Words) → Joining kind nil 0 places out result }
    {
        Join {
            kind,
            state: State::Open,
            parts: 0,
            words: 0,
        }
    }

    // A child that stands behind the words so far is kept: whole, or if it is a join of the same kind, its parts.
    fn keep(mut self, out: &mut [i32], k: usize) -> Join
        requires { Adding out.old self (R.Part k) }
        ensures { (a : Adding out.old self (R.Part k)) → added a out.new result }
    {
        if self.state != State::Open {
            return self;
        }
        if is_join(out, self.words, self.kind) {
            let count = words::value(out, self.words + 1);
            moving::left(out, self.words, k - 2);
            self.parts += count;
            self.words += k - 2;
            return self;
        }
        self.parts += 1;
        self.words += k;
        self
    }

    // The answer of the next child, which was lent the words behind those so far.
    pub fn add(mut self, out: &mut [i32], answer: Reduced) -> Join
        requires { Adding out.old self answer }
        ensures { (a : Adding out.old self answer) → added a out.new result }
    {
        match answer {
            Reduced::Short => {
                self.state = State::Short;
                self
            }
            Reduced::Plain(value) => {
                if value == self.kind {
                    return self;
                }
                self.state = self.state.max(State::Decided);
                self
            }
            Reduced::Long => {
                self.state = self.state.max(State::Long);
                self
            }
            Reduced::Part(k) => self.keep(out, k),
        }
    }

    // The answer of the join. The length of the buffer stays a clause, here and in the walks that come to it: in a loop of calls that call one
    // another each child is lent the rest of the buffer, and a struct with the bound can't be lent so.
    pub fn finish(self, out: &mut [i32]) -> Reduced
        requires { (length out.old ≤ 1048576)
            × ((b : Bool) × (ts : Trees) × (need : ℕ) × (places : ℕ) × Joining b ts need places out.old self) }
        ensures { (b : Bool) (ts : Trees) (need places : ℕ) →
            Joining b ts need places out.old self →
            Answers places need (joined b ts) out.old out.new result }
    {
        match self.state {
            State::Short => return Reduced::Short,
            State::Decided => return Reduced::Plain(!self.kind),
            State::Long => return Reduced::Long,
            State::Open => {}
        }
        if self.parts == 0 {
            return Reduced::Plain(self.kind);
        }
        if self.parts == 1 {
            return Reduced::Part(self.words);
        }
        if 2 <= out.len() - self.words {
            head(out, self.kind, self.parts, self.words);
            return Reduced::Part(self.words + 2);
        }
        Reduced::Long
    }
}
