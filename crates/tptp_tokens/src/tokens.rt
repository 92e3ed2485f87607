// Tokens of a text, with blanks before them. Each reading passes what it reads; one that is refused stops where its refusal has its place.
// What is read for each token is put into its callers by a hint, also in the other modules: so the copy of a place that a caller reads from
// stays in registers. As calls, that store the place in memory, the readings took a third more time for excluded tuples.
ghost use Rattle.std.specs.Prelude.{◌≡◌, [], ◌∷◌};
ghost use Rattle.model.specs.Bytes.{blank};
ghost use Rattle.model.specs.TptpReading as R;
ghost use Rattle.tptp_tokens.specs.Steps.{Skips, Steps};

use model::Refusal;
use text::bytes;
use text::cursor::Cursor;

// The byte may stand around tokens.
fn is_blank(b: u8) -> bool
    ensures { result ≡ blank b }
{
    (b == 32) | (b == bytes::LF) | (b == bytes::CR)
}

// Blanks, as many as there are.
#[inline(always)]
pub fn skip(here: &mut Cursor<'_>)
    ensures { Skips here.old here.new }
{
    here.pass(here.rest.iter().take_while(|b| is_blank(**b)).count());
}

// A token of one byte.
#[inline(always)]
pub fn expect(here: &mut Cursor<'_>, c: u8) -> Result<(), Refusal>
    ensures { Steps (R.token (c ∷ [])) here.old here.new result }
{
    skip(here);
    if here.rest.first() != Some(&c) {
        return Err(Refusal::Tptp);
    }
    here.pass(1);
    Ok(())
}

// These bytes, right here.
#[inline(always)]
pub fn literal(here: &mut Cursor<'_>, word: &[u8]) -> Result<(), Refusal>
    ensures { Steps (R.literal word.now) here.old here.new result }
{
    let text = here.rest;
    for i in 0..word.len() {
        if text.get(i) != Some(&word[i]) {
            here.pass(i);
            return Err(Refusal::Tptp);
        }
    }
    here.pass(word.len());
    Ok(())
}

// A token of these bytes. The hint is a weaker one: in the header of a text its loop over blanks stays a call.
#[inline]
pub fn token(here: &mut Cursor<'_>, word: &[u8]) -> Result<(), Refusal>
    ensures { Steps (R.token word.now) here.old here.new result }
{
    skip(here);
    literal(here, word)
}

// An opening parenthesis, with room for so many more.
#[inline(always)]
pub fn opening(here: &mut Cursor<'_>, room: usize) -> Result<(), Refusal>
    ensures { Steps (R.opening room) here.old here.new result }
{
    skip(here);
    if here.rest.first() != Some(&40) {
        return Err(Refusal::Tptp);
    }
    if room == 0 {
        return Err(Refusal::Level);
    }
    here.pass(1);
    Ok(())
}
