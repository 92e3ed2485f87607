// Copies of trees with numbers put in for their outer variables. A term keeps its two words, so that a copy is as long as
// the tree; all other words are copied as they are.
ghost use Rattle.std.specs.Prelude.{◌≡◌, List, ◌++◌, map, ℕ, ◌+◌, ◌*◌, ◌≤◌, ◌<◌, length, take, drop};
ghost use Rattle.model.specs.Words as W;
ghost use Rattle.model.specs.Lists.{gather};
ghost use Rattle.model.specs.Tag as T;
ghost use Rattle.model.specs.Tree.{Term, Tree, encode_term, encode};
ghost use Rattle.model.specs.Putting as P;
ghost use Rattle.laws.specs.Words.Standing.{Stands};
ghost use Rattle.policies.specs.Node.{as_tag, Sized};
ghost use Rattle.trees.specs.Grown as G;
ghost use Rattle.words.specs.Laying.{laid};
ghost use Rattle.trees.specs.Own as O;

use crate::walk::Walk;
use policies::node;
use policies::node::Tag;
use words::copying::copy_words;

// The words of a term, with a number put in for an outer variable; a greater variable falls.
fn put_term(numbers: &[i32], words: &[i32], from: usize, out: &mut [i32], to: usize)
    requires { ((t : Term) × Stands words.now from (encode_term t) (from + 2)) × (to + 2 ≤ length out.old) }
    ensures { (t : Term) →
        Stands words.now from (encode_term t) (from + 2) →
        out.new ≡ laid out.old to (encode_term (P.put_term numbers.now t)) }
{
    let second = words[from + 1];
    if words::is(words, from, 0) {
        out[to] = 0;
        out[to + 1] = second;
        return;
    }
    let x = words::value(words, from + 1);
    if x < numbers.len() {
        out[to] = 0;
        out[to + 1] = numbers[x];
        return;
    }
    let lowered = x - numbers.len();
    out[to] = 1;
    out[to + 1] = lowered as i32;
}

// The words of terms, with numbers put in.
fn put_terms(numbers: &[i32], words: &[i32], from: usize, n: usize, out: &mut [i32], to: usize)
    requires { ((ts : List Term) × O.Terms words.now from n ts) × (to + 2 * n ≤ length out.old) }
    ensures { (ts : List Term) →
        O.Terms words.now from n ts →
        out.new ≡ laid out.old to (gather encode_term (map (P.put_term numbers.now) ts)) }
{
    for i in 0..n {
        put_term(numbers, words, from + 2 * i, out, to + 2 * i);
    }
}

// How many terms end the own words of a node.
fn terms(words: &[i32], tag: Tag, at: usize) -> usize
    requires { at < length words.now }
    ensures { result ≡ O.terms words.now (as_tag tag) at }
{
    match tag {
        Tag::Atom(_) => words::value(words, at + 2),
        Tag::Compare(_) => 2,
        _ => 0,
    }
}

// The own words of a node, with numbers put in.
fn put_node(
    numbers: &[i32],
    words: &[i32],
    tag: Tag,
    at: usize,
    own: usize,
    out: &mut [i32],
    to: usize,
)
    requires { G.Tree-at words.now at
        × (as_tag tag ≡ T.tag_of (W.word words.now at))
        × Sized words.now (as_tag tag) at own
        × (to + own ≤ length out.old) }
    ensures { (tree : Tree) (next : ℕ) →
        G.Grown words.now at tree next →
        out.new ≡ laid out.old to (O.own_words (P.put tree numbers.now)) }
{
    let n = terms(words, tag, at);
    let first = own - 2 * n;
    copy_words(words, at, first, out, to);
    put_terms(numbers, words, at + first, n, out, to + first);
}

// The words of the tree at an index, with numbers put in, stand at the front.
pub fn put(numbers: &[i32], words: &[i32], at: usize, out: &mut [i32])
    requires { G.Room-at words.now at (length out.old) }
    ensures { (tree : Tree) (next : ℕ) →
        G.Grown words.now at tree next →
        length (encode tree) ≤ length out.old →
        out.new
        ≡ encode (P.put tree numbers.now) ++ drop (length (encode tree)) out.old }
{
    let mut walk = Walk::new(at);
    // By hand: the step is the size of the node that stands there.
    while 0 < walk.left {
        let from = walk.at;
        let tag = node::tag_at(words, from);
        walk = walk.past(words, tag);
        put_node(numbers, words, tag, from, walk.at - from, out, from - at);
    }
}

// The same with the first numbers of an array.
pub fn copy(numbers: [i32; 16], outer: usize, words: &[i32], at: usize, out: &mut [i32])
    requires { (outer ≤ 16) × G.Room-at words.now at (length out.old) }
    ensures { (tree : Tree) (next : ℕ) →
        G.Grown words.now at tree next →
        length (encode tree) ≤ length out.old →
        out.new
        ≡ encode (P.put tree (take outer numbers)) ++ drop (length (encode tree)) out.old }
{
    put(&numbers[..outer], words, at, out);
}
