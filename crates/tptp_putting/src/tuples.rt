// The variables that a quantifier binds, and its excluded tuples.
#![tactic(auto, using(text::proofs::PutLaws::adds_is, text::proofs::PutLaws::adds_then, crate::proofs::TextLaws::head_parts, crate::proofs::TextLaws::tuple_parts,), unfolding(model::specs::Bytes::bytes, crate::specs::Texts::unequal_text))]

ghost use Rattle.std.specs.Prelude.{◌+◌, ◌++◌, ◌≤◌, length};
ghost use Rattle.model.specs.Bytes.{bytes};
ghost use Rattle.model.specs.Words.{word, scope_limit};
ghost use Rattle.text.specs.Adds.{Adds};
ghost use Rattle.text.specs.Put.{Puts};
ghost use Rattle.tptp_putting.specs.Texts as T;

use text::writer::Writer;

// The numbers of v variables, at least one.
fn put_variables(w: &mut Writer<'_>, scope: usize, v: usize)
    requires { (1 ≤ v) × (scope + v ≤ scope_limit) }
    ensures { Adds (T.variables_text scope v) w.old w.new }
{
    w.natural(scope);
    for x in scope + 1..scope + v {
        w.bytes(b":$int,X");
        w.natural(x);
    }
}

// What stands before a restriction: for all (true) or exists, v variables, at least one, and an opening parenthesis; two where
// tuples are excluded.
pub fn put_head(w: &mut Writer<'_>, every: bool, scope: usize, v: usize, alone: bool)
    requires { (1 ≤ v) × (scope + v ≤ scope_limit) }
    ensures { Adds (T.head_text every scope v alone) w.old w.new }
{
    w.either(every, b"![X", b"?[X");
    put_variables(w, scope, v);
    w.either(alone, b":$int]:(", b":$int]:((");
}

// That a variable, whose letter stands already, is not the number at an index.
fn put_unequal(w: &mut Writer<'_>, x: usize, numbers: &[i32], i: usize)
    ensures { Adds (T.unequal_text x (word numbers.now i)) w.old w.new }
{
    w.natural(x);
    w.bytes(b"!=");
    w.word(numbers, i);
}

// That one of the variables from a scope on, at least one, is not its number of a tuple.
fn put_unequals(w: &mut Writer<'_>, tuple: &[i32], scope: usize)
    requires { (1 ≤ length tuple.now) × (scope + length tuple.now ≤ scope_limit) }
    ensures { Adds (T.unequals_text scope tuple.now) w.old w.new }
{
    w.bytes(b"X");
    put_unequal(w, scope, tuple, 0);
    for i in 1..tuple.len() {
        w.bytes(b"|X");
        put_unequal(w, scope + i, tuple, i);
    }
}

// An excluded tuple, behind a restriction.
fn put_tuple(w: &mut Writer<'_>, tuple: &[i32], scope: usize)
    requires { (1 ≤ length tuple.now) × (scope + length tuple.now ≤ scope_limit) }
    ensures { Adds (T.tuple_text scope tuple.now) w.old w.new }
{
    let single = tuple.len() == 1;
    w.either(single, b"&", b"&(");
    put_unequals(w, tuple, scope);
    w.either(single, b"", b")");
}

// Excluded tuples of v numbers, one behind another.
fn put_each(w: &mut Writer<'_>, numbers: &[i32], v: usize, scope: usize)
    requires { (1 ≤ v) × (scope + v ≤ scope_limit) × T.Tuples numbers.now v }
    ensures { (t : T.Tuples numbers.now v) → Adds (T.tuples_text scope t.list) w.old w.new }
{
    for from in (0..numbers.len()).step_by(v) {
        put_tuple(w, &numbers[from..from + v], scope);
    }
}

// The same at an index of a text, and the parenthesis that closes their restriction. The writer is made here, by hand, since it stays in
// registers so: through the one that was lent, an excluded tuple took a sixth longer.
fn put_closed(out: &mut [u8], at: usize, numbers: &[i32], v: usize, scope: usize) -> Option<usize>
    requires { (at ≤ length out.old) × (1 ≤ v) × (scope + v ≤ scope_limit) × T.Tuples numbers.now v }
    ensures { (t : T.Tuples numbers.now v) → Puts (T.tuples_text scope t.list ++ bytes ")") at out.old out.new result }
{
    let mut w = Writer { out, put: Some(at) };
    put_each(&mut w, numbers, v, scope);
    w.bytes(b")");
    w.put
}

// Excluded tuples and the parenthesis that closes their restriction; nothing, if there are none.
pub fn put_tuples(w: &mut Writer<'_>, numbers: &[i32], v: usize, scope: usize)
    requires { (1 ≤ v) × (scope + v ≤ scope_limit) × T.Tuples numbers.now v }
    ensures { (t : T.Tuples numbers.now v) → Adds (T.closed_text scope t.list) w.old w.new }
{
    if numbers.is_empty() {
        return;
    }
    let Some(at) = w.put else {
        return;
    };
    w.put = put_closed(w.out, at, numbers, v, scope);
}
