// The words of the dual of a policy. Words are in preorder, so that trees are walked with no stack: a count of the trees
// that are still to be passed does.
ghost use Rattle.std.specs.Prelude.{◌≡◌, ◌++◌, ℕ, suc, ◌+◌, ◌-◌, ◌≤◌, ◌<◌, length, drop, pos};
ghost use Rattle.model.specs.Words as W;
ghost use Rattle.model.specs.Tag as T;
ghost use Rattle.model.specs.Tree.{Tree, encode};
ghost use Rattle.model.specs.Calls.{zeros};
ghost use Rattle.model.specs.Dual as M;
ghost use Rattle.laws.specs.Words.Standing.{code};
ghost use Rattle.policies.specs.Node.{as_tag};
ghost use Rattle.trees.specs.Grown as G;
ghost use Rattle.trees.specs.Walk.{Ahead};
ghost use Rattle.duals.specs.Dual as D;

use policies::node;
use policies::node::Tag;
use trees::walk::{Walk, tree_end};
use words::clearing::clear;
use words::copying::copy_words;

// The word of the tag of the dual: the other one of a pair.
fn pair(tag: Tag) -> i32
    ensures { result ≡ pos (code (D.paired (as_tag tag))) }
{
    match tag {
        Tag::Plain(b) => i32::from(!b),
        Tag::Atom(b) => 2 + i32::from(b),
        Tag::Compare(b) => 4 + i32::from(b),
        Tag::Join(b) => 6 + i32::from(b),
        Tag::Quantifier(b) => 8 + i32::from(b),
        Tag::Some => 10,
        Tag::Unused => 11,
    }
}

// The walk past the words of the next node that its dual keeps: a restriction below the node is kept too.
fn past_kept(walk: Walk, words: &[i32], tag: Tag) -> Walk
    requires { (as_tag tag ≡ T.tag_of (W.word words.now walk.at)) × ((end : ℕ) × Ahead words.now walk.at walk.left end) }
    ensures { D.PastKept words.now (as_tag tag) walk result }
{
    let behind = walk.past(words, tag);
    match tag {
        Tag::Quantifier(_) | Tag::Some => Walk {
            at: tree_end(words, behind.at),
            left: behind.left - 1,
        },
        _ => behind,
    }
}

// The tags of formulas change to their pairs; restrictions stay. The buffer holds the words at its front. That the words are those of a tree
// is a clause: what is ensured speaks of that tree.
fn swap(words: &[i32], buffer: &mut [i32])
    requires { (buffer.old ≡ words.now ++ drop (length words.now) buffer.old)
        × ((tree : Tree) × G.Tupled tree × (encode tree ≡ words.now)) }
    ensures { (tree : Tree) →
        G.Tupled tree →
        encode tree ≡ words.now →
        buffer.new ≡ encode (M.dual tree) ++ drop (length words.now) buffer.old }
{
    let mut walk = Walk::new(0);
    // By hand: the step is the size of the node that stands there.
    while 0 < walk.left {
        let tag = node::tag_at(words, walk.at);
        buffer[walk.at] = pair(tag);
        walk = past_kept(walk, words, tag);
    }
}

// The dual of the policy that the words are, then zeros.
#[tactic(auto, unfolding(model::specs::Calls::zeros))]
pub fn write_dual(words: &[i32], buffer: &mut [i32])
    requires { (length words.now ≤ length buffer.old)
        × ((tree : Tree) × G.Tupled tree × (encode tree ≡ words.now)) }
    ensures { (tree : Tree) →
        G.Tupled tree →
        encode tree ≡ words.now →
        buffer.new
        ≡ encode (M.dual tree) ++ zeros (length buffer.old - length words.now) }
{
    copy_words(words, 0, words.len(), buffer, 0);
    swap(words, buffer);
    clear(buffer, words.len(), 0);
}
