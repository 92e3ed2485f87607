// The excluded tuples of a quantifier.
ghost use Rattle.std.specs.Prelude.{◌+◌, ◌*◌, ◌≤◌, length};

// m tuples of v words, one behind another from an index of a policy's words on.
#[derive(Clone, Copy)]
pub struct Excluded<'a> {
    pub words: &'a [i32],
    pub from: usize,
    pub m: usize,
    pub v: usize,
    pub ghost there: { from + v * m ≤ length words.now },
}
