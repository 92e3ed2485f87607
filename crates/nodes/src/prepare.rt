// The instances of a quantifier: its restriction is listed from the outer environment, and the instances are chosen.
ghost use Rattle.std.specs.Prelude.{◌≡◌, List, ℕ, ◌+◌, ◌*◌, ◌/◌, ◌≤◌, length, ℤ};
ghost use Rattle.model.specs.Words as W;
ghost use Rattle.model.specs.Tree.{Tree};
ghost use Rattle.model.specs.Level as L;
ghost use Rattle.laws.specs.Reading.Nodes.{Node};
ghost use Rattle.policies.specs.Standing.{Here};
ghost use Rattle.listing.specs.Restrictions.{Numbers};
ghost use Rattle.nodes.specs.Ground as G;
ghost use Rattle.nodes.specs.Prepare as P;

use crate::outer::Outer;
use environments::environment::Environment;
use instances::choosing;
use instances::excluded::Excluded;
use listing::restriction;
use listing::room::{Made, Room};
use logs::accepted::AcceptedLog;
use policies::depth::Depth;

// The instances of a quantifier: the first place where their tuples stand, how many they are, the places counted so far, and the
// index of the body.
#[derive(Clone, Copy)]
pub struct Placed {
    pub from: usize,
    pub count: usize,
    pub used: usize,
    pub body: usize,
}

// The room with the outer environment alone in it.
fn room(places: usize) -> Room
    requires { 1 ≤ places }
    ensures { Numbers result 0 1 1 1 places }
{
    Room {
        from: 0,
        count: 1,
        base: 1,
        used: 1,
        limit: places,
    }
}

// The instances of the quantifier of v variables at an index, which stands at a level; None if the places ran out.
pub fn prepare(
    log: &AcceptedLog<'_>,
    words: &[i32],
    scratch: &mut [i32],
    outer: &Outer,
    level: usize,
    v: usize,
    at: usize,
) -> Option<Placed>
    requires { (outer.now.scope + v ≤ 16)
        × (at + 3 + v * W.value words.now (at + 2) ≤ length words.now)
        × Here log.now.table.now words.now L.Role.restriction level (outer.now.scope + v) (at + 3 + v * W.value words.now (at + 2)) }
    ensures { (ρ : List ℤ) (c : Tree) (body : ℕ) →
        G.Outer outer.now.environment outer.now.scope ρ →
        Node log.now.table.now words.now L.Role.restriction level (outer.now.scope + v) (at + 3 + v * W.value words.now (at + 2)) c body →
        P.InstancesTell
        log.now.table.now
        words.now
        log.now.rows.now
        outer.now.scope
        v
        at
        c
        ρ
        body
        (length scratch.old / 17)
        scratch.new
        result }
{
    let places = scratch.len() / Environment::WORDS;
    if places < 1 {
        return None;
    }
    outer.environment.store(scratch, 0);
    let m = words::value(words, at + 2);
    let depth = Depth {
        level,
        scope: outer.scope + v,
    };
    let Made {
        room: to,
        next: body,
    } = restriction::list(log, words, scratch, room(places), depth, at + 3 + v * m)?;
    let excluded = Excluded {
        words,
        from: at + 3,
        m,
        v,
    };
    let count = choosing::instances(excluded, outer.scope, scratch, to.from, to.count);
    Some(Placed {
        from: to.from,
        count,
        used: to.used,
        body,
    })
}
