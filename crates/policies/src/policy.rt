// Policies: one walk over the words of a policy, front to back, asks questions 2 to 6 and finds the greatest level.
ghost use Rattle.std.specs.Prelude.{◌≡◌, ◌≤◌, length};
ghost use Rattle.model.specs.Reading.{read_policy};
ghost use Rattle.policies.specs.Node.{as_role};
ghost use Rattle.policies.specs.Policy.{placed, NodeTold, NodesTold, BothTold, told_policy};

use crate::depth::Depth;
use crate::node;
use crate::node::{Role, Tag};
use crate::spot::Spot;
use model::{POLICY_LIMIT, Refusal, Refused};

// Nodes that were read: the index behind them, and their greatest level.
#[derive(Clone, Copy, PartialEq, Eq)]
pub struct Walked {
    pub next: usize,
    pub level: usize,
}

// By hand in two things, since each node pays for them. These functions return a refusal's reason alone, and write its place to
// `place`: a `Refused` has seven bytes between its parts, where the index of a `Walked` lies, and each return would store and load
// these again in pieces (a check slower by a quarter, where nodes are small). And they take the words and an index: a `Spot` goes by
// a copy in memory, one for each call, and is made for the questions alone (with one for each call here the stack is a quarter larger).

// n nodes one behind another, in one role.
#[cycle(children_quantified_walk)]
fn children(
    table: &[i32],
    words: &[i32],
    role: Role,
    depth: Depth,
    n: usize,
    at: usize,
    place: &mut usize,
) -> Result<Walked, Refusal>
    requires { at ≤ length words.now }
    ensures { NodesTold table.now words.now (as_role role) depth.level depth.scope n at (placed place.new result) }
{
    let mut next = at;
    let mut level = depth.level;
    for _ in 0..n {
        let child = walk(table, words, role, depth, next, place)?;
        next = child.next;
        level = level.max(child.level);
    }
    Ok(Walked { next, level })
}

// The restriction of a quantifier, and the body behind it.
#[cycle(children_quantified_walk)]
fn quantified(
    table: &[i32],
    words: &[i32],
    depth: Depth,
    at: usize,
    place: &mut usize,
) -> Result<Walked, Refusal>
    requires { at ≤ length words.now }
    ensures { BothTold table.now words.now depth.level depth.scope at (placed place.new result) }
{
    let restriction = walk(table, words, Role::Restriction, depth, at, place)?;
    let body = walk(table, words, Role::Formula, depth, restriction.next, place)?;
    Ok(Walked {
        next: body.next,
        level: restriction.level.max(body.level),
    })
}

// The node at an index, and the nodes below it.
#[cycle(children_quantified_walk)]
fn walk(
    table: &[i32],
    words: &[i32],
    role: Role,
    depth: Depth,
    at: usize,
    place: &mut usize,
) -> Result<Walked, Refusal>
    requires { at ≤ length words.now }
    ensures { NodeTold table.now words.now (as_role role) depth.level depth.scope at (placed place.new result) }
{
    let tag = node::tag_at(words, at);
    if let Err(Refused(reason, refused)) = node::questions(
        table,
        Spot { words, at },
        tag,
        role,
        depth,
    ) {
        *place = refused;
        return Err(reason);
    }
    let level = depth.level + node::cost(role, tag);
    let next = at + node::size(words, tag, at);
    match tag {
        Tag::Join(b) => {
            let n = words::value(words, at + 1);
            let below = Depth {
                level,
                scope: depth.scope,
            };
            children(table, words, node::under(role, b), below, n, next, place)
        }
        Tag::Quantifier(_) => {
            let v = words::value(words, at + 1);
            let below = Depth {
                level,
                scope: depth.scope + v,
            };
            quantified(table, words, below, next, place)
        }
        Tag::Some => {
            let below = Depth {
                level,
                scope: depth.scope + 1,
            };
            walk(table, words, Role::Restriction, below, next, place)
        }
        _ => Ok(Walked { next, level }),
    }
}

// Questions 2 to 6 of a policy: its length, its nodes, and that no words stand behind them.
pub fn ask_policy(table: &[i32], policy: &[i32]) -> Result<Walked, Refused>
    ensures { result ≡ told_policy policy.now (read_policy table.now policy.now) }
{
    let n = policy.len();
    if n < 1 {
        return Err(Refused(Refusal::PolicyLength, 0));
    }
    if POLICY_LIMIT < n {
        return Err(Refused(Refusal::PolicyLength, 0));
    }
    let mut place = 0;
    let root = match walk(table, policy, Role::Formula, Depth::ROOT, 0, &mut place) {
        Ok(root) => root,
        Err(reason) => return Err(Refused(reason, place)),
    };
    if root.next != n {
        return Err(Refused(Refusal::Shape, root.next));
    }
    Ok(root)
}
