// The reduction of a formula: the walk of formulas and the walk of instances call each other, a level down each time.
ghost use Rattle.std.specs.Prelude.{◌≡◌, true, List, ℕ, ◌+◌, ◌*◌, ◌-◌, ◌/◌, ◌≤◌, length, take, ℤ};
ghost use Rattle.model.specs.Tree.{Tree};
ghost use Rattle.model.specs.Level as L;
ghost use Rattle.model.specs.Reading.{is_formula};
ghost use Rattle.laws.specs.Reading.Nodes.{Node};
ghost use Rattle.policies.specs.Standing.{Here, HereAll};
ghost use Rattle.policies.specs.Node.{as_role};
ghost use Rattle.nodes.specs.Ground as G;
ghost use Rattle.nodes.specs.Last.{Found};
ghost use Rattle.reduction.specs.Walk as R;

use environments::environment::Environment;
use joining::answer::Reduced;
use joining::join::{Join, State};
use logs::accepted::AcceptedLog;
use nodes::outer::Outer;
use nodes::prepare::Placed;
use nodes::{conclude, ground, prepare};
use policies::node;
use policies::node::{Role, Tag};
use trees::walk;

// The answer of a walk, and the index behind the formula.
#[derive(Clone, Copy)]
pub struct Walked {
    pub answer: Reduced,
    pub next: usize,
}

// The join of the bodies at the instances, and the index behind the body.
#[derive(Clone, Copy)]
pub struct Worked {
    pub join: Join,
    pub next: usize,
}

// The children of an all-of (true) or any-of: each is lent the words behind those of the parts before it.
#[cycle(children_formula_instances_quantifier)]
fn children(
    log: &AcceptedLog<'_>,
    words: &[i32],
    scratch: &mut [i32],
    out: &mut [i32],
    outer: &Outer,
    kind: bool,
    above: usize,
    n: usize,
    at: usize,
) -> Walked
    requires { (length out.old ≤ 1048576)
        × HereAll log.now.table.now words.now (L.Role.operand kind) above outer.now.scope n at }
    ensures { R.ReducesJoin kind log.now.table.now words.now log.now.rows.now above outer.now.scope n at outer.now.environment (length scratch.old / 17) out.old out.new result }
{
    let mut join = Join::new(kind);
    let mut next = at;
    for _ in 0..n {
        let from = join.words;
        let child = formula(
            log,
            words,
            scratch,
            &mut out[from..],
            outer,
            Role::Operand(kind),
            above,
            next,
        );
        let answer = child.answer;
        if let Reduced::Short = answer {
            return Walked { answer, next };
        }
        join = join.add(out, answer);
        next = child.next;
    }
    let answer = join.finish(out);
    Walked { answer, next }
}

// The body of a quantifier at each of its instances, whose tuples stand in places of scratch.
#[cycle(children_formula_instances_quantifier)]
fn instances(
    log: &AcceptedLog<'_>,
    words: &[i32],
    scratch: &mut [i32],
    out: &mut [i32],
    outer: &Outer,
    kind: bool,
    level: usize,
    v: usize,
    placed: Placed,
) -> Worked
    requires { (outer.now.scope + v ≤ 16)
        × (length out.old ≤ 1048576)
        × Here log.now.table.now words.now L.Role.formula level (outer.now.scope + v) placed.body
        × (placed.from + placed.count ≤ placed.used)
        × (17 * placed.used ≤ length scratch.old)
        × ((found : List (List ℤ)) × Found scratch.old outer.now.scope placed.from v placed.count found) }
    ensures works { (ρ : List ℤ) (found : List (List ℤ)) (f : Tree) (next : ℕ) →
        G.Outer outer.now.environment outer.now.scope ρ →
        Found scratch.old outer.now.scope placed.from v placed.count found →
        Node log.now.table.now words.now L.Role.formula level (outer.now.scope + v) placed.body f next →
        R.Works kind log.now.table.now log.now.rows.now f ρ found (length scratch.old / 17 - placed.used) next out.new result }
    ensures scratch_unchanged { take (17 * placed.used) scratch.new ≡ take (17 * placed.used) scratch.old }
{
    let from = placed.from;
    let k = placed.count;
    let used = placed.used;
    let body = placed.body;
    let mut join = Join::new(kind);
    let mut next = body;
    for i in 0..k {
        let bound = outer.instance(scratch, from + i, v);
        let room = Environment::WORDS * used;
        let start = join.words;
        let child = formula(
            log,
            words,
            &mut scratch[room..],
            &mut out[start..],
            &bound,
            Role::Formula,
            level,
            body,
        );
        let reduced = child.answer;
        join = join.add(out, reduced);
        if let Reduced::Short = reduced {
            return Worked { join, next };
        }
        next = child.next;
    }
    if k == 0 {
        return Worked {
            join,
            next: walk::tree_end(words, body),
        };
    }
    Worked { join, next }
}

// A quantifier at an index and a level: its instances, their bodies, and what is left of it.
#[cycle(children_formula_instances_quantifier)]
fn quantifier(
    log: &AcceptedLog<'_>,
    words: &[i32],
    scratch: &mut [i32],
    out: &mut [i32],
    outer: &Outer,
    kind: bool,
    level: usize,
    at: usize,
) -> Walked
    requires { (length out.old ≤ 1048576)
        × R.HereQuantified log.now.table.now words.now kind level outer.now.scope at }
    ensures { R.ReducesQuantifier kind log.now.table.now words.now log.now.rows.now level outer.now.scope at outer.now.environment (length scratch.old / 17) out.old out.new result }
{
    let v = words::value(words, at + 1);
    let prepared = prepare::prepare(log, words, scratch, outer, level, v, at);
    let Some(placed) = prepared else {
        return Walked {
            answer: Reduced::Short,
            next: at,
        };
    };
    let worked = instances(log, words, scratch, out, outer, kind, level, v, placed);
    let join = worked.join;
    if join.state == State::Short {
        return Walked {
            answer: Reduced::Short,
            next: at,
        };
    }
    let next = worked.next;
    let answer = conclude::conclude(
        log.table, words, scratch, out, outer, join, at, next, placed,
    );
    Walked { answer, next }
}

// The formula at an index, in a role under a node at the level above.
#[cycle(children_formula_instances_quantifier)]
pub fn formula(
    log: &AcceptedLog<'_>,
    words: &[i32],
    scratch: &mut [i32],
    out: &mut [i32],
    outer: &Outer,
    role: Role,
    above: usize,
    at: usize,
) -> Walked
    requires { (length out.old ≤ 1048576)
        × (is_formula (as_role role) ≡ true)
        × Here log.now.table.now words.now (as_role role) above outer.now.scope at }
    ensures { R.ReducesNode log.now.table.now words.now log.now.rows.now (as_role role) above outer.now.scope at outer.now.environment (length scratch.old / 17) out.old out.new result }
{
    let tag = node::tag_at(words, at);
    let level = above + node::cost(role, tag);
    let next = at + node::size(words, tag, at);
    match tag {
        Tag::Plain(b) => Walked {
            answer: Reduced::Plain(b),
            next,
        },
        Tag::Atom(b) => Walked {
            answer: ground::atom(log, words, outer.environment, outer.scope, b, at, out),
            next,
        },
        Tag::Compare(b) => Walked {
            answer: ground::compare(words, outer.environment, b, at),
            next,
        },
        Tag::Join(b) => {
            let n = words::value(words, at + 1);
            children(log, words, scratch, out, outer, b, level, n, next)
        }
        Tag::Quantifier(b) => { quantifier(log, words, scratch, out, outer, b, level, at) }
        _ => Walked {
            answer: Reduced::Plain(false),
            next,
        },
    }
}
