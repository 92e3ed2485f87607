// Variables, by the names that they must have: those of a binder.
ghost use Rattle.std.specs.Prelude.{◌≡◌, ◌+◌, ◌<◌, ◌^◌, [], ◌∷◌, length, take};
ghost use Rattle.model.specs.Tptp.{variable_token};
ghost use Rattle.model.specs.TptpReading as R;
ghost use Rattle.tptp_tokens.specs.Steps.{Steps};
ghost use Rattle.tptp_binders.specs.Binder as B;

use model::Refusal;
use text::bytes;
use text::cursor::Cursor;
use text::writing::put_natural;
use tptp_tokens::several::another;
use tptp_tokens::tokens::{expect, token};

// The token of a variable, whose letter stands in front of a small room for it.
fn named(here: &mut Cursor<'_>, word: &mut [u8], x: usize) -> Result<(), Refusal>
    requires { (length word.old ≡ 11) × (take 1 word.old ≡ 88 ∷ []) }
    ensures { Steps (R.token (variable_token x)) here.old here.new result }
{
    let put = put_natural(word, 1, x);
    let Some(n) = put else {
        return Ok(());
    };
    token(here, &word[..n])
}

// The token of a variable. One of one digit needs no room for its name, by hand: with the room, excluded tuples took a quarter more time.
#[inline(always)]
pub fn variable(here: &mut Cursor<'_>, x: usize) -> Result<(), Refusal>
    ensures { Steps (R.token (variable_token x)) here.old here.new result }
{
    if x < 10 {
        return token(here, &[88, bytes::NOUGHT + x as u8]);
    }
    let mut word = [88; 11];
    named(here, &mut word, x)
}

// A variable and its type.
fn declared(here: &mut Cursor<'_>, x: usize) -> Result<(), Refusal>
    ensures { Steps (R.declaration x) here.old here.new result }
{
    variable(here, x)?;
    expect(here, 58)?;
    token(here, b"$int")
}

// The variables of a binder from x on, at most so many and one: how many.
fn variables(here: &mut Cursor<'_>, x: usize, most: usize) -> Result<usize, Refusal>
    requires { x + most < 2 ^ 32 }
    ensures { B.VariablesRead most x here.old here.new result }
{
    declared(here, x)?;
    for count in 1..most + 1 {
        if !another(here, bytes::COMMA)? {
            return Ok(count);
        }
        declared(here, x + count)?;
    }
    Ok(most + 1)
}

// A binder from x on, of at most so many variables and one: how many.
pub fn binder(here: &mut Cursor<'_>, x: usize, most: usize) -> Result<usize, Refusal>
    requires { x + most < 2 ^ 32 }
    ensures { B.BinderRead most x here.old here.new result }
{
    expect(here, 91)?;
    let count = variables(here, x, most)?;
    expect(here, 93)?;
    expect(here, 58)?;
    Ok(count)
}
