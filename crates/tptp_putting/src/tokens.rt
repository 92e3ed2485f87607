// Terms, each written behind what was written before.
ghost use Rattle.std.specs.Prelude.{◌+◌, ◌*◌, ◌≤◌, length};
ghost use Rattle.text.specs.Adds.{Adds};
ghost use Rattle.tptp_putting.specs.Texts as T;

use text::writer::Writer;

// The term at an index.
pub fn put_term(w: &mut Writer<'_>, words: &[i32], i: usize)
    requires { i + 2 ≤ length words.now }
    ensures { Adds (T.term_text words.now i) w.old w.new }
{
    if words::zero(words, i) {
        w.word(words, i + 1);
        return;
    }
    w.bytes(b"X");
    w.natural(words::value(words, i + 1));
}

// The n terms from an index on, at least one, with commas between them.
pub fn put_terms(w: &mut Writer<'_>, words: &[i32], first: usize, n: usize)
    requires { (1 ≤ n) × (first + 2 * n ≤ length words.now) }
    ensures { Adds (T.terms_text words.now first n) w.old w.new }
{
    put_term(w, words, first);
    for i in 1..n {
        w.bytes(b",");
        put_term(w, words, first + 2 * i);
    }
}
