// The walk over a policy's words, which writes each node's text. Each function gives back the index of the word behind what it wrote, or
// None where it stopped, since there was too little room before.
ghost use Rattle.std.specs.Prelude.{◌≡◌, true, ◌+◌, ◌*◌, ◌≤◌, length};
ghost use Rattle.model.specs.Words as W;
ghost use Rattle.model.specs.Tag as T;
ghost use Rattle.text.specs.Adds.{Adds};
ghost use Rattle.tptp_writing.specs.Printing.{Printable, PrintableAll, Prints};
ghost use Rattle.tptp_writing.specs.Printing as P;

use policies::depth::Depth;
use policies::node;
use policies::node::Tag;
use text::writer::Writer;
use tptp_putting::{tokens, tuples};

// An atom that holds (true), or fails.
fn atom(words: &[i32], w: &mut Writer<'_>, holds: bool, at: usize) -> Option<usize>
    requires { (1 ≤ W.value words.now (at + 2)) × (at + 3 + 2 * W.value words.now (at + 2) ≤ length words.now) }
    ensures { Prints (P.node_text true (P.atom_at words.now holds at) 0)
        (at + 3 + 2 * W.value words.now (at + 2)) w.old w.new result }
{
    let n = words::value(words, at + 2);
    w.either(holds, b"p", b"~p");
    w.natural(words::value(words, at + 1));
    w.bytes(b"(");
    tokens::put_terms(w, words, at + 3, n);
    w.bytes(b")");
    Some(at + 3 + 2 * n)
}

// A comparison that holds (true), or fails.
fn compare(words: &[i32], w: &mut Writer<'_>, holds: bool, at: usize) -> Option<usize>
    requires { at + 6 ≤ length words.now }
    ensures { Prints (P.node_text true (P.compare_at words.now holds at) 0) (at + 6) w.old w.new result }
{
    w.either(holds, b"$lesseq($sum(", b"~$lesseq($sum(");
    tokens::put_term(w, words, at + 2);
    w.bytes(b",");
    w.word(words, at + 1);
    w.bytes(b"),");
    tokens::put_term(w, words, at + 4);
    w.bytes(b")");
    Some(at + 6)
}

// The n operands of an all-of (true) or any-of, at least one.
#[cycle(join_node_operands_quantifier_some)]
fn operands(
    words: &[i32],
    w: &mut Writer<'_>,
    every: bool,
    depth: Depth,
    n: usize,
    at: usize,
) -> Option<usize>
    requires { (1 ≤ n) × PrintableAll words.now depth.level depth.scope n at }
    ensures { (h : PrintableAll words.now depth.level depth.scope n at) →
        Prints (P.operands_text every h.trees depth.scope) h.next w.old w.new result }
{
    let mut next = node(words, w, false, depth, at);
    for _ in 1..n {
        let from = next?;
        w.either(every, b"&", b"|");
        next = node(words, w, false, depth, from);
    }
    next
}

// An all-of (true) or any-of, bare or in parentheses.
#[cycle(join_node_operands_quantifier_some)]
fn join(
    words: &[i32],
    w: &mut Writer<'_>,
    bare: bool,
    every: bool,
    depth: Depth,
    at: usize,
) -> Option<usize>
    requires { (T.Tag.join every ≡ T.tag_of (W.word words.now at)) × Printable words.now depth.level depth.scope at }
    ensures { (h : Printable words.now depth.level depth.scope at) →
        Prints (P.node_text bare h.tree depth.scope) h.next w.old w.new result }
{
    let n = words::value(words, at + 1);
    w.either(bare, b"", b"(");
    let below = Depth {
        level: depth.level + 1,
        scope: depth.scope,
    };
    let next = operands(words, w, every, below, n, at + 2);
    w.either(bare, b"", b")");
    next
}

// A quantifier.
#[cycle(join_node_operands_quantifier_some)]
fn quantifier(
    words: &[i32],
    w: &mut Writer<'_>,
    every: bool,
    depth: Depth,
    at: usize,
) -> Option<usize>
    requires { (T.Tag.quantifier every ≡ T.tag_of (W.word words.now at)) × Printable words.now depth.level depth.scope at }
    ensures { (h : Printable words.now depth.level depth.scope at) →
        Prints (P.node_text true h.tree depth.scope) h.next w.old w.new result }
{
    let v = words::value(words, at + 1);
    let m = words::value(words, at + 2);
    let first = at + 3 + v * m;
    tuples::put_head(w, every, depth.scope, v, m == 0);
    let below = Depth {
        level: depth.level + 1,
        scope: depth.scope + v,
    };
    let body = node(words, w, false, below, first)?;
    // Behind a full text the excluded tuples are not gone over.
    w.put?;
    tuples::put_tuples(w, &words[at + 3..first], v, depth.scope);
    w.either(every, b"=>", b"&");
    let next = node(words, w, false, below, body);
    w.bytes(b")");
    next
}

// A some: its restriction stands bare in its parentheses.
#[cycle(join_node_operands_quantifier_some)]
fn some(words: &[i32], w: &mut Writer<'_>, depth: Depth, at: usize) -> Option<usize>
    requires { (T.Tag.some ≡ T.tag_of (W.word words.now at)) × Printable words.now depth.level depth.scope at }
    ensures { (h : Printable words.now depth.level depth.scope at) →
        Prints (P.node_text true h.tree depth.scope) h.next w.old w.new result }
{
    tuples::put_head(w, false, depth.scope, 1, true);
    let below = Depth {
        level: depth.level + 1,
        scope: depth.scope + 1,
    };
    let next = node(words, w, true, below, at + 1);
    w.bytes(b")");
    next
}

// The node at an index, and the nodes below it. An all-of or any-of stands bare, or in parentheses.
#[cycle(join_node_operands_quantifier_some)]
pub fn node(words: &[i32], w: &mut Writer<'_>, bare: bool, depth: Depth, at: usize) -> Option<usize>
    requires { Printable words.now depth.level depth.scope at }
    ensures { (h : Printable words.now depth.level depth.scope at) →
        Prints (P.node_text bare h.tree depth.scope) h.next w.old w.new result }
{
    w.put?;
    let tag = node::tag_at(words, at);
    match tag {
        Tag::Plain(holds) => {
            w.either(holds, b"$true", b"$false");
            Some(at + 1)
        }
        Tag::Atom(holds) => atom(words, w, holds, at),
        Tag::Compare(holds) => compare(words, w, holds, at),
        Tag::Join(every) => join(words, w, bare, every, depth, at),
        Tag::Quantifier(every) => quantifier(words, w, every, depth, at),
        Tag::Some => some(words, w, depth, at),
        Tag::Unused => None,
    }
}
