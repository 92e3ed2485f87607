// Formulas and restrictions, as they stand in a text: they are read, asked questions 4 to 7 and laid in a buffer in one walk. Each way
// deeper opens a parenthesis; operands and tuples are loops. What a node is to the node above it hangs, for a first operand, on the
// connective behind it, which is looked up ahead. A parenthesis takes at most some 900 bytes of stack: what is known is lent.
ghost use Rattle.std.specs.Prelude.{◌≡◌, true, cond, ◌+◌, ◌*◌, ◌≤◌, length, slice_get, Some};
ghost use Rattle.model.specs.Bytes.{bytes, ampersand, bar, exclamation, interrogation};
ghost use Rattle.model.specs.Level.{restriction};
ghost use Rattle.model.specs.Reading.{is_formula};
ghost use Rattle.model.specs.TptpReading as R;
ghost use Rattle.policies.specs.Node.{as_role};
ghost use Rattle.tptp_tokens.specs.Steps.{Steps};
ghost use Rattle.tptp_binders.specs.Ahead.{StopsAt};
ghost use Rattle.tptp_leaves.specs.Leaves.{Unblank};
ghost use Rattle.tptp_state.specs.Told.{Ready};
ghost use Rattle.tptp_reading.specs.Formula as F;

use model::Refusal;
use modes::marks::Marks;
use policies::node;
use policies::node::{Role, Tag};
use text::cursor::Cursor;
use tptp_binders::ahead::{begins, begins_excluding, stands, stop};
use tptp_binders::binder::binder;
use tptp_binders::tuples::{behind_tuples, tuples};
use tptp_leaves::leaves::{either, leaf};
use tptp_leaves::own::Own;
use tptp_state::state::{State, outer_variables};
use tptp_tokens::laying::lay;
use tptp_tokens::several::another;
use tptp_tokens::tokens::{expect, opening, skip, token};

// A node with none below it, whose first byte stands here; its words stand apart for a moment.
fn read_leaf(
    table: &[i32],
    here: &mut Cursor<'_>,
    room: usize,
    role: Role,
    above: usize,
    scope: usize,
    state: &mut State,
    out: &mut [i32],
) -> Result<(), Refusal>
    requires { Ready above scope state.old
        × Unblank here.old.rest.now
        × F.LeafByte (is_formula (as_role role)) here.old.rest.now }
    ensures { F.OperandRead room table.now (as_role role) above scope state.old state.new out.old out.new here.old here.new result }
{
    // An array, since no call takes memory.
    let mut words = [0; 16];
    let mut own = Own { words: &mut words };
    leaf(here, room, &mut own)?;
    let Own { words, .. } = own;
    state.settle_leaf(table, words, role, above, scope, out);
    Ok(())
}

// The connective of an all-of (true) or any-of.
fn connective(every: bool) -> u8
    ensures { result ≡ cond every ampersand bar }
{
    if every { 38 } else { 124 }
}

// What stands between restriction and body. By an if, since the text says which.
fn implies(here: &mut Cursor<'_>, every: bool) -> Result<(), Refusal>
    ensures { Steps (R.token (cond every (bytes "=>") (bytes "&"))) here.old here.new result }
{
    if every {
        return token(here, b"=>");
    }
    expect(here, 38)
}

// The further operands of an all-of (true) or any-of, of which the first is read and the first connective stands here: how many there are
// with the first.
#[cycle(chain_children_excluding_operand_quantifier_restricted_some_whole)]
fn children(
    table: &[i32],
    here: &mut Cursor<'_>,
    room: usize,
    role: Role,
    above: usize,
    scope: usize,
    every: bool,
    start: Marks,
    state: &mut State,
    out: &mut [i32],
) -> Result<usize, Refusal>
    requires { F.Begins table.now room above scope state.old × (1 ≤ length here.old.rest.now) }
    ensures { F.ChildrenRead room every table.now (as_role role) above scope start state.old state.new out.old out.new here.old here.new result }
{
    let connective = connective(every);
    let mut n = 1;
    while another(here, connective)? {
        let marks = state.set;
        state.hand(every, start);
        operand(table, here, room, role, above, scope, state, out)?;
        state.join(every, marks);
        n += 1;
    }
    Ok(n)
}

// An all-of or any-of, whose first operand reaches to `stop`, and the closing parenthesis behind it.
#[cycle(chain_children_excluding_operand_quantifier_restricted_some_whole)]
fn chain(
    table: &[i32],
    here: &mut Cursor<'_>,
    stop: &Cursor<'_>,
    room: usize,
    role: Role,
    above: usize,
    scope: usize,
    state: &mut State,
    out: &mut [i32],
) -> Result<(), Refusal>
    requires { F.Begins table.now room above scope state.old
        × (above + 1 + 2 * room ≤ 600)
        × StopsAt here.old stop.now }
    ensures { F.NodeRead (F.chained ((R.readers room).operand (is_formula (as_role role)) scope)) table.now (as_role role) above scope state.old state.new out.old out.new here.old here.new result }
{
    let w = state.words;
    let start = state.set;
    let every = stands(stop, 38);
    let some = stands(stop, 124);
    let below = node::under(role, every);
    state.enter(2, above < node::LEVEL_LIMIT, true, start);
    operand(table, here, room, below, above + 1, scope, state, out)?;
    skip(here);
    if (here.at != stop.at) | !(every | some) {
        return Err(Refusal::Tptp);
    }
    let count = children(
        table,
        here,
        room,
        below,
        above + 1,
        scope,
        every,
        start,
        state,
        out,
    )?;
    lay(out, w, either(every, 6, 7));
    lay(out, w + 1, count);
    expect(here, 41)
}

// An all-of or any-of with no parentheses around it, or an operand that is none; and the closing parenthesis behind it.
#[cycle(chain_children_excluding_operand_quantifier_restricted_some_whole)]
pub fn whole(
    table: &[i32],
    here: &mut Cursor<'_>,
    room: usize,
    role: Role,
    above: usize,
    scope: usize,
    state: &mut State,
    out: &mut [i32],
) -> Result<(), Refusal>
    requires { F.Begins table.now room above scope state.old × (above + 1 + 2 * room ≤ 600) }
    ensures { F.NodeRead (F.closed ((R.readers room).operand (is_formula (as_role role)) scope)) table.now (as_role role) above scope state.old state.new out.old out.new here.old here.new result }
{
    let stop = stop(here);
    let every = stands(&stop, 38);
    let some = stands(&stop, 124);
    if every | some {
        return chain(table, here, &stop, room, role, above, scope, state, out);
    }
    let parenthesis = begins(here, 40);
    operand(table, here, room, role, above, scope, state, out)?;
    if parenthesis {
        skip(here);
        return Err(Refusal::Tptp);
    }
    expect(here, 41)
}

// A "some", whose first byte stands here.
#[cycle(chain_children_excluding_operand_quantifier_restricted_some_whole)]
fn some(
    table: &[i32],
    here: &mut Cursor<'_>,
    room: usize,
    above: usize,
    scope: usize,
    state: &mut State,
    out: &mut [i32],
) -> Result<(), Refusal>
    requires { F.Begins table.now room above scope state.old × (slice_get here.old.rest.now 0 ≡ Some interrogation) }
    ensures { F.NodeRead (R.read_some room (F.beneath room) scope) table.now restriction above scope state.old state.new out.old out.new here.old here.new result }
{
    here.pass(1);
    binder(here, scope, 0)?;
    opening(here, room)?;
    let w = state.words;
    let start = state.set;
    state.enter(
        1,
        above < node::LEVEL_LIMIT,
        scope < node::SCOPE_LIMIT,
        start,
    );
    whole(
        table,
        here,
        room.saturating_sub(1),
        Role::Restriction,
        above + 1,
        scope + 1,
        state,
        out,
    )?;
    lay(out, w, 10);
    state.drop_variable(scope, w);
    Ok(())
}

// How many were read: none, if they were refused.
fn count_of(listed: Result<usize, Refusal>) -> usize
    ensures { result ≡ F.count_of listed }
{
    listed.unwrap_or(0)
}

// A restriction with excluded tuples, in parentheses of their own, the first of which is open; the connective before the first tuple
// stands ahead, at `stop`. The tuples are read first: in the words they stand before the restriction. In the text they stand behind it,
// so that their refusal waits for that of the restriction.
#[cycle(chain_children_excluding_operand_quantifier_restricted_some_whole)]
fn excluding<'a>(
    table: &[i32],
    here: &mut Cursor<'a>,
    stop: &Cursor<'a>,
    room: usize,
    level: usize,
    x: usize,
    v: usize,
    state: &mut State,
    out: &mut [i32],
) -> Result<usize, Refusal>
    requires { F.Begins table.now room level (x + v) state.old
        × (1 ≤ v) × (v ≤ 4)
        × StopsAt here.old stop.now
        × (R.begins_excluding v stop.now.rest.now ≡ true) }
    ensures { F.RestrictionRead (F.exclusion room v x) table.now level x v state.old state.new out.old out.new here.old here.new result }
{
    let w = state.words;
    let mut behind = *stop;
    let listed = tuples(&mut behind, room, v, x, out, w);
    state.words = behind_tuples(w, v, count_of(listed));
    operand(
        table,
        here,
        room,
        Role::Restriction,
        level,
        x + v,
        state,
        out,
    )?;
    skip(here);
    if here.at != stop.at {
        return Err(Refusal::Tptp);
    }
    *here = behind;
    let count = listed?;
    expect(here, 41)?;
    Ok(count)
}

// The restriction of a quantifier of v variables from x on: how many excluded tuples it has.
#[cycle(chain_children_excluding_operand_quantifier_restricted_some_whole)]
fn restricted(
    table: &[i32],
    here: &mut Cursor<'_>,
    room: usize,
    level: usize,
    x: usize,
    v: usize,
    state: &mut State,
    out: &mut [i32],
) -> Result<usize, Refusal>
    requires { F.Begins table.now room level (x + v) state.old × (1 ≤ v) × (v ≤ 4) }
    ensures { F.RestrictionRead ((R.readers room).restriction v x) table.now level x v state.old state.new out.old out.new here.old here.new result }
{
    if !begins(here, 40) {
        operand(
            table,
            here,
            room,
            Role::Restriction,
            level,
            x + v,
            state,
            out,
        )?;
        return Ok(0);
    }
    opening(here, room)?;
    let stop = stop(here);
    if begins_excluding(&stop, v) {
        return excluding(
            table,
            here,
            &stop,
            room.saturating_sub(1),
            level,
            x,
            v,
            state,
            out,
        );
    }
    chain(
        table,
        here,
        &stop,
        room.saturating_sub(1),
        Role::Restriction,
        level,
        x + v,
        state,
        out,
    )?;
    Ok(0)
}

// A quantifier, for all (true) or exists, whose first byte stands here.
#[cycle(chain_children_excluding_operand_quantifier_restricted_some_whole)]
fn quantifier(
    table: &[i32],
    here: &mut Cursor<'_>,
    room: usize,
    every: bool,
    role: Role,
    above: usize,
    scope: usize,
    state: &mut State,
    out: &mut [i32],
) -> Result<(), Refusal>
    requires { F.Begins table.now room above scope state.old
        × (slice_get here.old.rest.now 0 ≡ Some (cond every exclamation interrogation))
        × (is_formula (as_role role) ≡ true) }
    ensures { F.NodeRead (R.read_quantifier room (F.beneath room) every scope) table.now (as_role role) above scope state.old state.new out.old out.new here.old here.new result }
{
    here.pass(1);
    let v = binder(here, scope, 3)?;
    opening(here, room)?;
    let w = state.words;
    let level = above + node::cost(role, Tag::Quantifier(every));
    state.enter(
        3,
        level <= node::LEVEL_LIMIT,
        scope + v <= node::SCOPE_LIMIT,
        outer_variables(scope),
    );
    let excluded = restricted(
        table,
        here,
        room.saturating_sub(1),
        level,
        scope,
        v,
        state,
        out,
    )?;
    implies(here, every)?;
    state.introduce(scope, v, w);
    operand(
        table,
        here,
        room.saturating_sub(1),
        Role::Formula,
        level,
        scope + v,
        state,
        out,
    )?;
    lay(out, w, either(every, 8, 9));
    lay(out, w + 1, v);
    lay(out, w + 2, excluded);
    expect(here, 41)
}

// An operand: a node with none below it, an all-of or any-of in parentheses, a quantifier in formulas, a "some" in restrictions.
#[cycle(chain_children_excluding_operand_quantifier_restricted_some_whole)]
fn operand(
    table: &[i32],
    here: &mut Cursor<'_>,
    room: usize,
    role: Role,
    above: usize,
    scope: usize,
    state: &mut State,
    out: &mut [i32],
) -> Result<(), Refusal>
    requires { F.Begins table.now room above scope state.old }
    ensures { F.OperandRead room table.now (as_role role) above scope state.old state.new out.old out.new here.old here.new result }
{
    skip(here);
    let Some(&b) = here.rest.first() else {
        return Err(Refusal::Tptp);
    };
    if b == 40 {
        opening(here, room)?;
        let stop = stop(here);
        return chain(
            table,
            here,
            &stop,
            room.saturating_sub(1),
            role,
            above,
            scope,
            state,
            out,
        );
    }
    let formula = node::is_formula(role);
    if formula & (b == 33) {
        return quantifier(table, here, room, true, role, above, scope, state, out);
    }
    if formula & (b == 63) {
        return quantifier(table, here, room, false, role, above, scope, state, out);
    }
    if b == 63 {
        return some(table, here, room, above, scope, state, out);
    }
    read_leaf(table, here, room, role, above, scope, state, out)
}
