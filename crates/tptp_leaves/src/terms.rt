// Terms, as they stand in a text. The words of several go to a small room of their own, which holds the words of one atom.
ghost use Rattle.model.specs.TptpReading as R;
ghost use Rattle.tptp_tokens.specs.Steps.{Valued};
ghost use Rattle.tptp_leaves.specs.Room.{Kept};
ghost use Rattle.tptp_leaves.specs.Terms as T;

use crate::own::Own;
use model::Refusal;
use text::bytes;
use text::cursor::Cursor;
use tptp_tokens::numbers::{integer, natural};
use tptp_tokens::several::another;
use tptp_tokens::tokens::skip;

// The words of a term: its kind, a constant (0) or a variable (1), and its number.
#[derive(Clone, Copy)]
pub struct TermWords {
    pub kind: i32,
    pub number: i32,
}

// A variable, whose letter was passed.
#[inline(always)]
fn variable(here: &mut Cursor<'_>) -> Result<TermWords, Refusal>
    ensures { T.TermRead T.read_variable here.old here.new result }
{
    let number = natural(here)?;
    Ok(TermWords {
        kind: 1,
        number: number as i32,
    })
}

// A constant.
#[inline(always)]
fn constant(here: &mut Cursor<'_>) -> Result<TermWords, Refusal>
    ensures { T.TermRead T.read_constant here.old here.new result }
{
    let number = integer(here)?;
    Ok(TermWords { kind: 0, number })
}

// A term, behind blanks.
#[inline(always)]
pub fn term(here: &mut Cursor<'_>) -> Result<TermWords, Refusal>
    ensures { T.TermRead R.term here.old here.new result }
{
    skip(here);
    if here.rest.first() == Some(&88) {
        here.pass(1);
        return variable(here);
    }
    constant(here)
}

// One to six terms with commas between them. Their number and their words go behind the first two words.
pub fn terms(here: &mut Cursor<'_>, own: &mut Own<'_>) -> Result<(), Refusal>
    ensures kept { Kept own.old own.new }
    ensures reads { Valued R.terms (T.TermsStand own.old.words.now own.new.words.now) here.old here.new result }
{
    own.put_term(3, term(here)?);
    own.put(2, 1);
    for n in 1..6 {
        if !another(here, bytes::COMMA)? {
            return Ok(());
        }
        own.put_term(3 + 2 * n, term(here)?);
        own.put(2, n + 1);
    }
    Ok(())
}
