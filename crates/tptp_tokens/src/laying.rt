// Words laid to an index of a buffer, as far as it reaches, and the counting of words up to a limit.
ghost use Rattle.std.specs.Prelude.{◌≡◌, Bool, ◌+◌, ◌*◌, ◌≤◌, ◌<◌, min, length, set, pos};
ghost use Rattle.model.specs.TptpReading as R;
ghost use Rattle.tptp_tokens.specs.Steps.{Valued};
ghost use Rattle.tptp_tokens.specs.Laying as L;

use crate::numbers::integer;
use model::Refusal;
use text::cursor::Cursor;

// Words are counted so far: beyond, a policy has too many.
pub const MOST: usize = 2097152;

// So many words more. A function of its own, since the callers' proofs cite its contract.
pub fn more_words(words: usize, n: usize) -> usize
    requires { (words ≤ L.most_words) × (n ≤ 4 * L.most_words) }
    ensures { result ≡ min (words + n) L.most_words }
{
    (words + n).min(MOST)
}

// A number becomes the word at an index, if the buffer has it.
fn lay_word(out: &mut [i32], w: usize, n: i32)
    ensures { out.new ≡ set out.old w n }
{
    if w < out.len() {
        out[w] = n;
    }
}

// A count that is a word becomes the word at an index, if the buffer has it.
pub fn lay(out: &mut [i32], w: usize, n: usize)
    ensures { L.Laid w n out.old out.new × (2147483647 < n → out.new ≡ out.old) }
{
    if n <= 2147483647 {
        lay_word(out, w, n as i32);
    }
}

// The own words of an all-of or any-of: its tag and its number of operands.
pub fn lay_two(out: &mut [i32], w: usize, tag: usize, n: usize)
    requires { w ≤ L.most_words }
    ensures { L.LaidTwo w tag n out.old out.new }
{
    lay(out, w, tag);
    lay(out, w + 1, n);
}

// The own words of a quantifier before its tuples: its tag, its number of variables and that of its tuples.
pub fn lay_three(out: &mut [i32], w: usize, tag: usize, v: usize, m: usize)
    requires { w ≤ L.most_words }
    ensures { L.LaidThree w tag v m out.old out.new }
{
    lay_two(out, w, tag, v);
    lay(out, w + 2, m);
}

// A number, which becomes the word at an index.
#[inline(always)]
pub fn lay_integer(here: &mut Cursor<'_>, out: &mut [i32], w: usize) -> Result<(), Refusal>
    ensures { Valued R.integer (L.Stored w out.old out.new) here.old here.new result }
{
    lay_word(out, w, integer(here)?);
    Ok(())
}
