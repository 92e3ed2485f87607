// The last part of a quantifier's reduction: the same quantifier with the instances put behind its excluded tuples, and its
// restriction and body with the outer numbers put in.
ghost use Rattle.std.specs.Prelude.{◌≡◌, ℕ, ◌+◌, ◌*◌, ◌≤◌, length, take};
ghost use Rattle.model.specs.Words as W;
ghost use Rattle.model.specs.Tree.{Tree, encode};
ghost use Rattle.model.specs.Putting as P;
ghost use Rattle.trees.specs.Grown.{Grown};
ghost use Rattle.words.specs.Laying.{laid};
ghost use Rattle.nodes.specs.Last as L;

use crate::prepare::Placed;
use environments::environment::Environment;
use joining::answer::Reduced;
use trees::putting;
use words::copying;

// The first three words of the quantifier at an index, with k more excluded tuples.
fn head(words: &[i32], at: usize, k: usize, out: &mut [i32])
    requires { (at + 3 ≤ length words.now) × (W.value words.now (at + 2) + k ≤ 1048576) × (3 ≤ length out.old) }
    ensures { out.new ≡ laid out.old 0 (L.head_words words.now at k) }
{
    let m = words::value(words, at + 2);
    copying::copy_words(words, at, 2, out, 0);
    out[2] = (m + k) as i32;
}

// The tuples of k places of scratch, one behind another.
fn tuples(
    scratch: &[i32],
    scope: usize,
    v: usize,
    from: usize,
    k: usize,
    out: &mut [i32],
    to: usize,
)
    requires { (17 * (from + k) ≤ length scratch.now) × (scope + v ≤ 16) × (to + v * k ≤ length out.old) }
    ensures { out.new
        ≡ laid out.old to (L.tuple_words scratch.now v (17 * from + scope) k) }
{
    for j in 0..k {
        copying::copy_words(
            scratch,
            Environment::WORDS * (from + j) + scope,
            v,
            out,
            to + v * j,
        );
    }
}

// The words of the quantifier at an index in front of its restriction, with the tuples of k places more.
fn front(
    words: &[i32],
    scratch: &[i32],
    scope: usize,
    at: usize,
    from: usize,
    k: usize,
    out: &mut [i32],
)
    requires { L.Fronts words.now scratch.now scope at from k (length out.old) }
    ensures { out.new
        ≡ laid out.old 0 (L.front_words words.now scratch.now scope at from k) }
{
    let v = words::value(words, at + 1);
    let m = words::value(words, at + 2);
    let behind = 3 + v * m;
    head(words, at, k, out);
    copying::copy_words(words, at + 3, v * m, out, 3);
    tuples(scratch, scope, v, from, k, out, behind);
}

// A copy of the tree at an index, with the outer numbers put in, stands at another.
fn copy_at(
    environment: Environment,
    scope: usize,
    words: &[i32],
    at: usize,
    out: &mut [i32],
    to: usize,
)
    requires { (scope ≤ 16) × L.CopyRoom words.now at to (length out.old) }
    ensures { (tree : Tree) (next : ℕ) →
        Grown words.now at tree next →
        to + length (encode tree) ≤ length out.old →
        out.new ≡ laid out.old to (encode (P.put tree (take scope environment.numbers))) }
{
    let numbers = environment.numbers;
    putting::copy(numbers, scope, words, at, &mut out[to..]);
}

// The quantifier at an index, which ends before `next`, with the tuples of its instances, if it fits.
pub fn last(
    words: &[i32],
    scratch: &[i32],
    environment: Environment,
    scope: usize,
    at: usize,
    next: usize,
    placed: Placed,
    out: &mut [i32],
) -> Reduced
    requires { (length out.old ≤ 1048576)
        × (17 * (placed.from + placed.count) ≤ length scratch.now)
        × L.HereQuantifier words.now scope at placed.body next }
    ensures { L.Remains words.now scratch.now environment scope at placed.body next placed.from placed.count out.old out.new result }
{
    let body = placed.body;
    let from = placed.from;
    let k = placed.count;
    let v = words::value(words, at + 1);
    let m = words::value(words, at + 2);
    let start = at + 3 + v * m;
    let to = 3 + v * (m + k);
    let size = to + (next - start);
    if out.len() < size {
        return Reduced::Long;
    }
    front(words, scratch, scope, at, from, k, out);
    copy_at(environment, scope, words, start, out, to);
    copy_at(environment, scope, words, body, out, to + (body - start));
    Reduced::Part(size)
}
