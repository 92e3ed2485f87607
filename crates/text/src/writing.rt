// Numbers in decimal, written into a text, and the answer about a text that was written.
ghost use Rattle.std.specs.Prelude.{◌≡◌, ◌++◌, ◌≤◌, ◌-◌, length, take};
ghost use Rattle.model.specs.Words.{word};
ghost use Rattle.model.specs.Decimal.{digits, decimal};
ghost use Rattle.text.specs.Writing as N;
ghost use Rattle.text.specs.Put.{Puts};
ghost use Rattle.text.specs.Written as W;

use crate::bytes;
use model::{Answer, Refusal, Refused};

// Each writing returns the index behind what was written, or None where it finds too little room.

// The answer about a text that was written, or found too little room.
#[tactic(auto, unfolding(crate::specs::Written::written))]
pub fn written(put: Option<usize>) -> Answer
    ensures { result ≡ W.written put }
{
    put.ok_or(Refused(Refusal::Room, 0))
}

// The powers of ten that a number of more than one digit reaches, as far as ten digits are written.
const POWERS: [usize; 9] = [
    10, 100, 1000, 10000, 100000, 1000000, 10000000, 100000000, 1000000000,
];

// How many digits a number has, of at most ten.
fn width(n: usize) -> usize
    ensures { N.Width n result }
{
    1 + POWERS.iter().take_while(|power| **power <= n).count()
}

// The last digits of a number, from one index up to another: the last of them first.
fn put_digits(out: &mut [u8], from: usize, next: usize, n: usize)
    requires { (from ≤ next) × (next ≤ length out.old) }
    ensures { take next out.new ≡ take from out.old ++ N.last_digits (next - from) n }
{
    let mut left = n;
    for i in (from..next).rev() {
        out[i] = bytes::NOUGHT + (left % 10) as u8;
        left /= 10;
    }
}

// A number that is not negative, written at an index of a text.
pub fn put_natural(out: &mut [u8], at: usize, n: usize) -> Option<usize>
    requires { at ≤ length out.old }
    ensures { Puts (digits 10 n) at out.old out.new result }
{
    let next = at + width(n);
    if out.len() < next {
        return None;
    }
    put_digits(out, at, next, n);
    Some(next)
}

// The word at an index of a slice, written at an index of a text. A number that is not negative is written over the minus.
pub fn put_number(out: &mut [u8], at: usize, words: &[i32], i: usize) -> Option<usize>
    requires { at ≤ length out.old }
    ensures { Puts (decimal (word words.now i)) at out.old out.new result }
{
    let n = words::value(words, i);
    let from = at + words::negative(words, i) as usize;
    let next = from + width(n);
    if out.len() < next {
        return None;
    }
    out[at] = bytes::MINUS;
    put_digits(out, from, next, n);
    Some(next)
}
