// Where a node is looked for in a policy's words.
ghost use Rattle.std.specs.Prelude.{◌≤◌, length};

// An index of the words, or their end.
#[derive(Clone, Copy)]
pub struct Spot<'a> {
    pub words: &'a [i32],
    pub at: usize,
    pub ghost within: { at ≤ length words.now },
}
