// The room for the words of a node with none below it, which stand apart from those of the policy.
ghost use Rattle.std.specs.Prelude.{◌≤◌, length};

use crate::terms::TermWords;
use text::word;

// A buffer that the words of any such node fit into.
#[derive(Drop)]
pub struct Own<'a> {
    pub words: &'a mut [i32],
    pub ghost long: { 15 ≤ length words.now },
}

impl<'a> Own<'a> {
    ghost use Rattle.std.specs.Prelude.{◌+◌, ◌<◌, set, pos};
    ghost use Rattle.tptp_leaves.specs.Room.{Becomes};

    // A tag or a number of terms, or the number of a predicate, becomes the word at an index.
    pub fn put(&mut self, k: usize, n: usize)
        requires { (k < 15) × (n ≤ 2147483647) }
        ensures { Becomes self.old (set self.old.words.now k (pos n)) self.new }
    {
        word::put(self.words, k, n, false);
    }

    // A number becomes the word at an index.
    pub fn put_number(&mut self, k: usize, n: i32)
        requires { k < 15 }
        ensures { Becomes self.old (set self.old.words.now k n) self.new }
    {
        self.words[k] = n;
    }

    // The words of a term go to an index.
    pub fn put_term(&mut self, k: usize, term: TermWords)
        requires { k + 2 ≤ 15 }
        ensures { Becomes self.old (set (set self.old.words.now k term.kind) (k + 1) term.number) self.new }
    {
        self.words[k] = term.kind;
        self.words[k + 1] = term.number;
    }
}
