// The mode rule: question 7, in a second pass over a policy that was read.
ghost use Rattle.std.specs.Prelude.{◌≡◌, Bool, true, List, ℕ, ◌+◌, ◌^◌, ◌≤◌, ◌<◌, ℤ};
ghost use Rattle.model.specs.Words as W;
ghost use Rattle.model.specs.Words.{level_limit, scope_limit};
ghost use Rattle.model.specs.Lists.{all};
ghost use Rattle.model.specs.Mode.{ask_modes};
ghost use Rattle.model.specs.Reading.{places, in_scope, is_formula};
ghost use Rattle.model.specs.Level as L;
ghost use Rattle.tables.specs.Checked.{outcome};
ghost use Rattle.policies.specs.Node.{as_role};
ghost use Rattle.policies.specs.Standing.{HereTerms, Here, HereAll};
ghost use Rattle.modes.specs.Mode.{set_of, Binds, BindsAll, BindsAny};
ghost use Rattle.modes.specs.Mode.{HereBoth, Asks, AsksAll, AsksBoth};
ghost use Rattle.model.specs.Tree.{Term, Tree, Trees, atom, compare, some, count};
ghost use Rattle.laws.specs.Reading.Parts.{AtomParts, CompareParts};
ghost use Rattle.laws.specs.Reading.Nodes.{Node, Nodes};

use crate::marks::Marks;
use model::{Refusal, Refused};
use policies::depth::Depth;
use policies::node;
use policies::node::{Role, Tag};
use policies::terms::Terms;

// What a restriction binds: the variables bound after it, and the index behind it.
#[derive(Clone, Copy, PartialEq, Eq)]
pub struct Bound {
    pub set: Marks,
    pub next: usize,
}

// An atom, of tag 2 (true) or 3, in a restriction.
fn bind_atom(
    table: &[i32],
    words: &[i32],
    bound: Marks,
    holds: bool,
    at: usize,
) -> Result<Bound, Refused>
    requires { HereTerms words.now at }
    ensures { (p : ℕ) (ts : List Term) (scope next : ℕ) → AtomParts words.now scope at next p ts → Binds (atom holds p ts) table.now (set_of bound) scope at next result }
{
    let p = words::value(words, at + 1);
    let n = words::value(words, at + 2);
    let terms = Terms {
        words,
        first: at + 3,
        n,
    };
    let next = at + 3 + 2 * n;
    if holds {
        if !bound.inputs_bound(table, p, terms) {
            return Err(Refused(Refusal::Mode, at));
        }
        let set = bound.with_terms(terms);
        return Ok(Bound { set, next });
    }
    if !bound.all_bound(terms) {
        return Err(Refused(Refusal::Mode, at));
    }
    Ok(Bound { set: bound, next })
}

// A comparison in a restriction.
fn bind_compare(words: &[i32], bound: Marks, at: usize) -> Result<Bound, Refused>
    requires { (at + 6 < 2 ^ 64) × (all (in_scope words.now 16) (places (at + 2) 2) ≡ true) }
    ensures { (table : W.Words) (b : Bool) (d : ℤ) (x y : Term) (scope next : ℕ) → CompareParts words.now scope at next d x y → Binds (compare b d x y) table (set_of bound) scope at next result }
{
    let terms = Terms {
        words,
        first: at + 2,
        n: 2,
    };
    if !bound.all_bound(terms) {
        return Err(Refused(Refusal::Mode, at));
    }
    Ok(Bound {
        set: bound,
        next: at + 6,
    })
}

// The operands of an all-of, from left to right.
// Two functions, here and for an any-of: in one loop by the kind, the sets are taken apart mark by mark at each turn.
#[cycle(bind_bind_all_bind_any_bind_some)]
fn bind_all(
    table: &[i32],
    words: &[i32],
    bound: Marks,
    depth: Depth,
    n: usize,
    at: usize,
) -> Result<Bound, Refused>
    requires { HereAll table.now words.now L.Role.restriction depth.level depth.scope n at }
    ensures { (ts : Trees) (next : ℕ) → Nodes table.now words.now L.Role.restriction depth.level depth.scope at ts next → count ts ≡ n → BindsAll ts table.now (set_of bound) depth.scope at next result }
{
    let mut set = bound;
    let mut next = at;
    for _ in 0..n {
        let child = bind(table, words, set, depth, next)?;
        set = child.set;
        next = child.next;
    }
    Ok(Bound { set, next })
}

// The operands of an any-of, each from the same set: the variables bound by all of them.
#[cycle(bind_bind_all_bind_any_bind_some)]
fn bind_any(
    table: &[i32],
    words: &[i32],
    bound: Marks,
    depth: Depth,
    n: usize,
    at: usize,
) -> Result<Bound, Refused>
    requires { (1 ≤ n) × HereAll table.now words.now L.Role.restriction depth.level depth.scope n at }
    ensures { (ts : Trees) (next : ℕ) → Nodes table.now words.now L.Role.restriction depth.level depth.scope at ts next → count ts ≡ n → BindsAny ts table.now (set_of bound) depth.scope at next result }
{
    let first = bind(table, words, bound, depth, at)?;
    let mut set = first.set;
    let mut next = first.next;
    for _ in 1..n {
        let child = bind(table, words, bound, depth, next)?;
        set = set.both(child.set);
        next = child.next;
    }
    Ok(Bound { set, next })
}

// "Some": its variable is bound by its child, and then dropped.
#[cycle(bind_bind_all_bind_any_bind_some)]
fn bind_some(
    table: &[i32],
    words: &[i32],
    bound: Marks,
    depth: Depth,
    at: usize,
) -> Result<Bound, Refused>
    requires { (depth.level < level_limit) × (depth.scope < scope_limit) × Here table.now words.now L.Role.restriction (depth.level + 1) (depth.scope + 1) (at + 1) }
    ensures { (c : Tree) (next : ℕ) → Node table.now words.now L.Role.restriction (depth.level + 1) (depth.scope + 1) (at + 1) c next → Binds (some c) table.now (set_of bound) depth.scope at next result }
{
    let below = Depth {
        level: depth.level + 1,
        scope: depth.scope + 1,
    };
    let child = bind(table, words, bound, below, at + 1)?;
    if !child.set.has(depth.scope) {
        return Err(Refused(Refusal::Mode, at));
    }
    Ok(Bound {
        set: child.set.without(depth.scope),
        next: child.next,
    })
}

// The variables bound after a restriction, from those bound before it.
#[cycle(bind_bind_all_bind_any_bind_some)]
pub fn bind(
    table: &[i32],
    words: &[i32],
    bound: Marks,
    depth: Depth,
    at: usize,
) -> Result<Bound, Refused>
    requires { Here table.now words.now L.Role.restriction depth.level depth.scope at }
    ensures { (c : Tree) (next : ℕ) → Node table.now words.now L.Role.restriction depth.level depth.scope at c next → Binds c table.now (set_of bound) depth.scope at next result }
{
    let tag = node::tag_at(words, at);
    match tag {
        Tag::Atom(holds) => bind_atom(table, words, bound, holds, at),
        Tag::Compare(_) => bind_compare(words, bound, at),
        Tag::Join(every) => {
            let n = words::value(words, at + 1);
            let below = Depth {
                level: depth.level + 1,
                scope: depth.scope,
            };
            if every {
                bind_all(table, words, bound, below, n, at + 2)
            } else {
                bind_any(table, words, bound, below, n, at + 2)
            }
        }
        Tag::Some => bind_some(table, words, bound, depth, at),
        _ => Ok(Bound {
            set: bound,
            next: at + 1,
        }),
    }
}

// n formulas one behind another, in one role. That the role is one of formulas is a clause, as elsewhere: restrictions have roles of the same type.
#[cycle(formula_formulas_quantified)]
fn formulas(
    table: &[i32],
    words: &[i32],
    role: Role,
    depth: Depth,
    n: usize,
    at: usize,
) -> Result<usize, Refused>
    requires { (is_formula (as_role role) ≡ true) × HereAll table.now words.now (as_role role) depth.level depth.scope n at }
    ensures { AsksAll table.now words.now (as_role role) depth.level depth.scope n at result }
{
    let mut next = at;
    for _ in 0..n {
        next = formula(table, words, role, depth, next)?;
    }
    Ok(next)
}

// The restriction and the body of a quantifier at an index, of v variables: the restriction stands at first.
#[cycle(formula_formulas_quantified)]
fn quantified(
    table: &[i32],
    words: &[i32],
    depth: Depth,
    v: usize,
    at: usize,
    first: usize,
) -> Result<usize, Refused>
    requires { (depth.scope + v ≤ scope_limit) × HereBoth table.now words.now depth.level (depth.scope + v) first }
    ensures { AsksBoth table.now words.now depth.level depth.scope v at first result }
{
    let below = Depth {
        level: depth.level,
        scope: depth.scope + v,
    };
    let restriction = bind(table, words, Marks::outer(depth.scope), below, first)?;
    if !restriction.set.introduced(depth.scope, v) {
        return Err(Refused(Refusal::Mode, at));
    }
    formula(table, words, Role::Formula, below, restriction.next)
}

// The formula at an index, and the nodes below it.
#[cycle(formula_formulas_quantified)]
fn formula(
    table: &[i32],
    words: &[i32],
    role: Role,
    depth: Depth,
    at: usize,
) -> Result<usize, Refused>
    requires { (is_formula (as_role role) ≡ true) × Here table.now words.now (as_role role) depth.level depth.scope at }
    ensures { Asks table.now words.now (as_role role) depth.level depth.scope at result }
{
    let tag = node::tag_at(words, at);
    let below = Depth {
        level: depth.level + node::cost(role, tag),
        scope: depth.scope,
    };
    let next = at + node::size(words, tag, at);
    match tag {
        Tag::Join(b) => {
            let n = words::value(words, at + 1);
            formulas(table, words, node::under(role, b), below, n, next)
        }
        Tag::Quantifier(_) => {
            let v = words::value(words, at + 1);
            quantified(table, words, below, v, at, next)
        }
        _ => Ok(next),
    }
}

// Question 7 of a policy that was read.
pub fn check_modes(table: &[i32], words: &[i32]) -> Result<(), Refused>
    requires { Here table.now words.now L.Role.formula 0 0 0 }
    ensures { (tree : Tree) (next : ℕ) → Node table.now words.now L.Role.formula 0 0 0 tree next → outcome result ≡ ask_modes tree table.now 0 0 }
{
    formula(table, words, Role::Formula, Depth::ROOT, 0)?;
    Ok(())
}
