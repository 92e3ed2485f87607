// Numbers, as they stand in a text.
ghost use Rattle.std.specs.Prelude.{◌≤◌, ◌<◌, ◌^◌};
ghost use Rattle.tptp_tokens.specs.Numbers as N;

use crate::tokens::skip;
use model::Refusal;
use text::bytes;
use text::cursor::Cursor;
use text::word::signed;

// Further digits of a number, up to the most.
#[inline(always)]
fn more_digits(here: &mut Cursor<'_>, most: usize, first: usize) -> Result<usize, Refusal>
    requires { (first ≤ most) × (most < 2 ^ 32) }
    ensures { N.More most first here.old here.new result }
{
    let text = here.rest;
    let mut n = first;
    for i in 0..text.len() {
        let b = text[i];
        if !bytes::digit(b) {
            here.pass(i);
            return Ok(n);
        }
        let raised = 10 * n + (b - bytes::NOUGHT) as usize;
        if (n == 0) | (most < raised) {
            here.pass(i);
            return Err(Refusal::Tptp);
        }
        n = raised;
    }
    here.pass(text.len());
    Ok(n)
}

// A number up to the most, of whose digits the first is at least this one. By hand, since the library's `parse` takes a 0 in front and does
// not tell where it refuses.
#[inline(always)]
fn number(here: &mut Cursor<'_>, least: u8, most: usize) -> Result<usize, Refusal>
    requires { (48 ≤ least) × (9 ≤ most) × (most < 2 ^ 32) }
    ensures { N.Numbers least most here.old here.new result }
{
    match here.rest.first() {
        Some(&b) if (least <= b) & (b <= b'9') => {
            here.pass(1);
            more_digits(here, most, (b - bytes::NOUGHT) as usize)
        }
        _ => Err(Refusal::Tptp),
    }
}

// The number of a predicate or a variable.
#[inline(always)]
pub fn natural(here: &mut Cursor<'_>) -> Result<usize, Refusal>
    ensures { N.Naturals here.old here.new result }
{
    number(here, b'0', 2147483647)
}

// The digits behind a minus. A function of its own, since the proof of `integer` cites its contract.
#[inline(always)]
fn magnitude(here: &mut Cursor<'_>) -> Result<usize, Refusal>
    ensures { N.Magnitudes here.old here.new result }
{
    number(here, b'1', 2147483648)
}

// A number, behind blanks.
#[inline(always)]
pub fn integer(here: &mut Cursor<'_>) -> Result<i32, Refusal>
    ensures { N.Integers here.old here.new result }
{
    skip(here);
    if here.rest.first() == Some(&bytes::MINUS) {
        here.pass(1);
        return Ok(signed(magnitude(here)?, true));
    }
    Ok(signed(natural(here)?, false))
}
