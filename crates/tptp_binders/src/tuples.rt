// Excluded tuples, as they stand in a text behind a restriction.
ghost use Rattle.std.specs.Prelude.{◌≡◌, ◌+◌, ◌*◌, ◌-◌, ◌≤◌, ◌<◌, ◌^◌, min, length};
ghost use Rattle.model.specs.TptpReading as R;
ghost use Rattle.tptp_tokens.specs.Steps.{Steps, Valued};
ghost use Rattle.tptp_tokens.specs.Laying as L;
ghost use Rattle.tptp_binders.specs.Tuples as T;

use crate::binder::variable;
use model::Refusal;
use text::cursor::Cursor;
use tptp_tokens::laying::{MOST, lay_integer, more_words};
use tptp_tokens::several::another;
use tptp_tokens::tokens::{expect, opening, token};

// A variable and the number that it is unequal to, which becomes the word at an index.
#[inline(always)]
fn unequal(here: &mut Cursor<'_>, x: usize, out: &mut [i32], w: usize) -> Result<(), Refusal>
    ensures { Valued (R.unequal x) (L.Stored w out.old out.new) here.old here.new result }
{
    variable(here, x)?;
    token(here, b"!=")?;
    lay_integer(here, out, w)
}

// Further variables from x on, so many, each behind a bar. Their numbers become the words from an index on.
fn further(
    here: &mut Cursor<'_>,
    x: usize,
    n: usize,
    out: &mut [i32],
    w: usize,
) -> Result<(), Refusal>
    requires { (x + n < 2 ^ 32) × (w + n < 2 ^ 32) }
    ensures { Valued (T.further_unequals n x) (T.StoredAll n w out.old out.new) here.old here.new result }
{
    for i in 0..n {
        expect(here, 124)?;
        unequal(here, x + i, out, w + i)?;
    }
    Ok(())
}

// v variables from x on. Their numbers become the words from an index on.
fn unequals(
    here: &mut Cursor<'_>,
    x: usize,
    v: usize,
    out: &mut [i32],
    w: usize,
) -> Result<(), Refusal>
    requires { (1 ≤ v) × (x + v < 2 ^ 32) × (w + v < 2 ^ 32) }
    ensures { Valued (R.read_unequals (v - 1) x) (T.StoredAll v w out.old out.new) here.old here.new result }
{
    unequal(here, x, out, w)?;
    further(here, x + 1, v - 1, out, w + 1)
}

// A tuple of v variables begins here: those of more than one stand in parentheses.
fn opened(here: &mut Cursor<'_>, room: usize, v: usize) -> Result<(), Refusal>
    ensures { Steps (T.tuple_opening room v) here.old here.new result }
{
    if v == 1 {
        return Ok(());
    }
    opening(here, room)
}

// A tuple of v variables ends.
fn closed(here: &mut Cursor<'_>, v: usize) -> Result<(), Refusal>
    ensures { Steps (T.tuple_closing v) here.old here.new result }
{
    if v == 1 {
        return Ok(());
    }
    expect(here, 41)
}

// An excluded tuple of v variables from x on.
fn tuple(
    here: &mut Cursor<'_>,
    room: usize,
    v: usize,
    x: usize,
    out: &mut [i32],
    w: usize,
) -> Result<(), Refusal>
    requires { (1 ≤ v) × (x + v < 2 ^ 32) × (w + v < 2 ^ 32) }
    ensures { Valued (R.read_tuple room v x) (T.StoredAll v w out.old out.new) here.old here.new result }
{
    opened(here, room, v)?;
    unequals(here, x, v, out, w)?;
    closed(here, v)
}

// Excluded tuples one behind another, wherever the place is lent from.
fn listed(
    here: &mut Cursor<'_>,
    room: usize,
    v: usize,
    x: usize,
    out: &mut [i32],
    w: usize,
) -> Result<usize, Refusal>
    requires { (1 ≤ length here.old.rest.now) × (1 ≤ v) × (v ≤ 4) × (x + v < 2 ^ 32) × (w ≤ L.most_words) }
    ensures { T.TuplesRead room v x w out.old out.new here.old here.new result }
{
    let mut count = 0;
    let mut to = w;
    while another(here, 38)? {
        tuple(here, room, v, x, out, to)?;
        count += 1;
        to = more_words(to, v);
    }
    Ok(count)
}

// Excluded tuples of v variables from x on, each behind a connective: how many. Their numbers become the words from an index on. They are
// read from a copy of the place, which stays in registers: stored at each token, it cost a fifth to two fifths more time. It is a call of its
// own, so that the copy takes no stack of the restrictions that nest.
#[inline(never)]
pub fn tuples(
    here: &mut Cursor<'_>,
    room: usize,
    v: usize,
    x: usize,
    out: &mut [i32],
    w: usize,
) -> Result<usize, Refusal>
    requires { (1 ≤ length here.old.rest.now) × (1 ≤ v) × (v ≤ 4) × (x + v < 2 ^ 32) × (w ≤ L.most_words) }
    ensures { T.TuplesRead room v x w out.old out.new here.old here.new result }
{
    let mut now = *here;
    let count = listed(&mut now, room, v, x, out, w);
    *here = now;
    count
}

// The words behind so many excluded tuples of v variables.
pub fn behind_tuples(w: usize, v: usize, count: usize) -> usize
    requires { (w ≤ L.most_words) × (1 ≤ v) × (v ≤ 4) }
    ensures { result ≡ min (w + v * count) L.most_words }
{
    if MOST < count {
        return MOST;
    }
    more_words(w, v * count)
}
