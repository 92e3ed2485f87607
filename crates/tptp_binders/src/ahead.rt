// What stands ahead in a text: the first byte that can follow an operand, and whether excluded tuples begin there. Nothing is refused
// here, whatever the text, and nothing is passed: what is read ahead is read from a copy of the place.
ghost use Rattle.std.specs.Prelude.{◌≡◌};
ghost use Rattle.model.specs.TptpReading.{begins_with, begins_tuple, begins_excluding};
ghost use Rattle.tptp_binders.specs.Ahead.{StopsBehind, StopsAt, Foretells, begins};

use text::cursor::Cursor;
use tptp_tokens::tokens::{expect, skip};

// How many bytes stand before the first connective or closing parenthesis outside the parentheses opened in them: all, if there is none.
fn stop_index(rest: &[u8]) -> usize
    ensures { StopsBehind rest.now result }
{
    let mut depth: usize = 0;
    for i in 0..rest.len() {
        let b = rest[i];
        if b == 40 {
            depth += 1;
        } else if b == 41 {
            if depth == 0 {
                return i;
            }
            depth -= 1;
        } else if (depth == 0) & ((b == 38) | (b == 124)) {
            return i;
        }
    }
    rest.len()
}

// Where that byte stands, or the end.
pub fn stop<'a>(here: &Cursor<'a>) -> Cursor<'a>
    ensures { StopsAt here.now result }
{
    let mut ahead = *here;
    ahead.pass(stop_index(here.rest));
    ahead
}

// The next byte is this one.
pub fn stands(here: &Cursor<'_>, c: u8) -> bool
    ensures { result ≡ begins_with c here.now.rest.now }
{
    here.rest.first() == Some(&c)
}

// Whether an operand stands in an all-of, by the connective behind it. It is told of one that begins as a quantifier: only what this costs
// hangs on it, so that of other operands nothing is passed ahead.
pub fn under_all(here: &Cursor<'_>) -> bool
    ensures { Foretells here.now.rest.now result }
{
    let mut first = *here;
    skip(&mut first);
    if !(stands(&first, 33) | stands(&first, 63)) {
        return true;
    }
    stands(&stop(here), 38)
}

// The first byte behind blanks is this one.
pub fn begins(here: &Cursor<'_>, c: u8) -> bool
    ensures { result ≡ begins c here.now.rest.now }
{
    let mut ahead = *here;
    expect(&mut ahead, c).is_ok()
}

// Behind blanks a text begins with an excluded tuple of v variables.
fn begins_tuple(here: &Cursor<'_>, v: usize) -> bool
    ensures { result ≡ begins_tuple v here.now.rest.now }
{
    if v == 1 {
        return begins(here, 88);
    }
    let mut ahead = *here;
    expect(&mut ahead, 40).is_ok() && begins(&ahead, 88)
}

// Behind blanks a text begins with the connective before an excluded tuple of v variables.
pub fn begins_excluding(here: &Cursor<'_>, v: usize) -> bool
    ensures { result ≡ begins_excluding v here.now.rest.now }
{
    let mut ahead = *here;
    expect(&mut ahead, 38).is_ok() && begins_tuple(&ahead, v)
}
