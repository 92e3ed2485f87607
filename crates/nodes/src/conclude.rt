// What is left of a quantifier once its bodies are joined: the join, with the last part if the restriction is not closed.
ghost use Rattle.std.specs.Prelude.{◌+◌, ◌*◌, ◌≤◌, length};
ghost use Rattle.nodes.specs.Conclude.{Concluding, concluded};

use crate::last;
use crate::outer::Outer;
use crate::prepare::Placed;
use instances::closing;
use joining::answer::Reduced;
use joining::join::Join;

// The quantifier at an index, which ends before `next`; the bodies at its instances are joined.
pub fn conclude(
    table: &[i32],
    words: &[i32],
    scratch: &[i32],
    out: &mut [i32],
    outer: &Outer,
    join: Join,
    at: usize,
    next: usize,
    placed: Placed,
) -> Reduced
    requires { (length out.old ≤ 1048576)
        × (17 * (placed.from + placed.count) ≤ length scratch.now)
        × Concluding table.now words.now scratch.now out.old outer.now.environment outer.now.scope at placed.body next placed.from placed.count join }
    ensures { (a : Concluding table.now words.now scratch.now out.old outer.now.environment outer.now.scope at placed.body next placed.from placed.count join) →
        concluded a out.new result }
{
    let v = words::value(words, at + 1);
    let m = words::value(words, at + 2);
    if closing::closed(table, words, at + 3 + v * m) {
        return join.finish(out);
    }
    let start = join.words;
    let answer = last::last(
        words,
        scratch,
        outer.environment,
        outer.scope,
        at,
        next,
        placed,
        &mut out[start..],
    );
    let whole = join.add(out, answer);
    whole.finish(out)
}
