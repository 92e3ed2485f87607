// Numbers in decimal, as they stand in a text.
ghost use Rattle.std.specs.Prelude.{◌≡◌, true, eqb};
ghost use Rattle.model.specs.Lists.{all};
ghost use Rattle.model.specs.Bytes as B;
ghost use Rattle.model.specs.Decimal.{plain_digits};
ghost use Rattle.text.specs.Passing.{Stops};
ghost use Rattle.text.specs.Reading as N;

use crate::cursor::Cursor;
use crate::passing::passes;
use crate::{bytes, word};

// The greatest magnitudes of 32 bits, without a minus and with one.
const GREATEST: usize = 2147483647;

const GREATEST_BELOW: usize = 2147483648;

// Digits at the front of a text: how many, and the number that they stand for, as far as it is followed.
#[derive(Clone, Copy)]
struct Digits {
    count: usize,
    magnitude: usize,
}

// One digit more. A number that has no 32 bits any more is not followed further.
fn raised(n: usize, b: u8) -> usize
    requires { B.digit b ≡ true }
    ensures { result ≡ N.raised n b }
{
    if n < 2147483648 {
        10 * n + (b - 48) as usize
    } else {
        2147483649
    }
}

// The digits at the front of a text.
fn leading(text: &[u8]) -> Digits
    ensures { N.Leading text.now result }
{
    let mut magnitude = 0;
    for count in 0..text.len() {
        let b = text[count];
        if !bytes::digit(b) {
            return Digits { count, magnitude };
        }
        magnitude = raised(magnitude, b);
    }
    Digits {
        count: text.len(),
        magnitude,
    }
}

// Digits are at least one, with no 0 in front of others.
fn plain(digits: &[u8]) -> bool
    requires { all B.digit digits.now ≡ true }
    ensures { result ≡ plain_digits digits.now }
{
    if digits.len() == 0 {
        return false;
    }
    if digits.len() == 1 {
        return true;
    }
    digits[0] != bytes::NOUGHT
}

// The digits that stand here are passed: the number that they stand for, as far as it is followed, if they are plain.
fn natural(here: &mut Cursor<'_>) -> Option<usize>
    ensures { N.Natural here.old here.new result }
{
    let text = here.rest;
    let Digits { count, magnitude } = leading(text);
    here.pass(count);
    if !plain(&text[..count]) {
        return None;
    }
    Some(magnitude)
}

// A number whose minus stands before this place.
fn negative(here: &mut Cursor<'_>) -> Option<i32>
    ensures { N.NegativeAt here.old here.new result }
{
    let magnitude = natural(here)?;
    if magnitude < 1 {
        return None;
    }
    if GREATEST_BELOW < magnitude {
        return None;
    }
    Some(word::signed(magnitude, true))
}

// A number with no minus.
fn positive(here: &mut Cursor<'_>) -> Option<i32>
    requires { Stops (λ c. eqb c 45) here.old.rest.now }
    ensures { N.NumberAt here.old here.new result }
{
    let magnitude = natural(here)?;
    if GREATEST < magnitude {
        return None;
    }
    Some(word::signed(magnitude, false))
}

// What stands here where a number may stand is passed, a minus and digits: the number, if they spell one.
pub fn number_at(here: &mut Cursor<'_>) -> Option<i32>
    ensures { N.NumberAt here.old here.new result }
{
    if passes(here, bytes::MINUS) {
        return negative(here);
    }
    positive(here)
}
