// Names of formulas, as they stand in a text: lower words.
ghost use Rattle.std.specs.Prelude.{◌≡◌};
ghost use Rattle.model.specs.Bytes.{word_byte};
ghost use Rattle.model.specs.TptpReading as R;
ghost use Rattle.tptp_tokens.specs.Steps.{Reads, Steps};

use crate::tokens::skip;
use model::Refusal;
use text::cursor::Cursor;

// The byte is a letter, a digit or an underscore.
fn is_word(b: u8) -> bool
    ensures { result ≡ word_byte b }
{
    b.is_ascii_alphanumeric() | (b == b'_')
}

// Letters, digits and underscores, as many as there are.
fn word_bytes(here: &mut Cursor<'_>)
    ensures { Reads R.word_bytes here.old tt here.new }
{
    here.pass(here.rest.iter().take_while(|b| is_word(**b)).count());
}

// A name.
pub fn name(here: &mut Cursor<'_>) -> Result<(), Refusal>
    ensures { Steps R.name here.old here.new result }
{
    skip(here);
    if !here.rest.first().is_some_and(u8::is_ascii_lowercase) {
        return Err(Refusal::Tptp);
    }
    word_bytes(here);
    Ok(())
}
