// Walks over the words of trees, past one node after another. A count of the trees that are still to be passed does for a
// stack.
ghost use Rattle.std.specs.Prelude.{◌≡◌, ℕ, ◌<◌, length};
ghost use Rattle.model.specs.Words as W;
ghost use Rattle.model.specs.Tag as T;
ghost use Rattle.model.specs.Tree.{Tree, encode};
ghost use Rattle.policies.specs.Node.{as_tag};
ghost use Rattle.trees.specs.Grown as G;
ghost use Rattle.trees.specs.Walk.{Ahead, Passed};

use policies::node;
use policies::node::Tag;

// How many trees follow the own words of a node.
pub fn below(words: &[i32], tag: Tag, at: usize) -> usize
    requires { at < length words.now }
    ensures { result ≡ G.below words.now (as_tag tag) at }
{
    match tag {
        Tag::Join(_) => words::value(words, at + 1),
        Tag::Quantifier(_) => 2,
        Tag::Some => 1,
        _ => 0,
    }
}

// A walk over the nodes of a tree: the index of the next node, and how many trees are still to be passed.
#[derive(Clone, Copy)]
pub struct Walk {
    pub at: usize,
    pub left: usize,
}

impl Walk {
    // The walk over the tree at an index.
    pub fn new(at: usize) -> Walk
        ensures { result ≡ record { at = at; left = 1 } }
    {
        Walk { at, left: 1 }
    }

    // The next node, whose tag is given, is passed.
    pub fn past(self, words: &[i32], tag: Tag) -> Walk
        requires { (as_tag tag ≡ T.tag_of (W.word words.now self.at)) × ((end : ℕ) × Ahead words.now self.at self.left end) }
        ensures { Passed words.now (as_tag tag) self result }
    {
        let more = below(words, tag, self.at);
        let own = node::size(words, tag, self.at);
        Walk {
            at: self.at + own,
            left: self.left - 1 + more,
        }
    }
}

// The index behind the tree at an index. That a tree stands there is a clause, here and below: what is ensured speaks of that tree.
pub fn tree_end(words: &[i32], at: usize) -> usize
    requires { G.Tree-at words.now at }
    ensures { (tree : Tree) (next : ℕ) → G.Grown words.now at tree next → result ≡ next }
{
    let mut walk = Walk::new(at);
    // By hand: the step is the size of the node that stands there.
    while 0 < walk.left {
        walk = walk.past(words, node::tag_at(words, walk.at));
    }
    walk.at
}

// How many words the tree at an index has.
pub fn size(words: &[i32], at: usize) -> usize
    requires { G.Tree-at words.now at }
    ensures { (tree : Tree) (next : ℕ) → G.Grown words.now at tree next → result ≡ length (encode tree) }
{
    let next = tree_end(words, at);
    next - at
}
