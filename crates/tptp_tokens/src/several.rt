// Several things one after another, each behind the same byte.
ghost use Rattle.tptp_tokens.specs.Several.{AnotherRead};

use crate::tokens::skip;
use model::Refusal;
use text::cursor::Cursor;

// Whether one more of them follows, behind this byte, which is passed then.
#[inline(always)]
pub fn another(here: &mut Cursor<'_>, c: u8) -> Result<bool, Refusal>
    ensures { AnotherRead c here.old here.new result }
{
    skip(here);
    match here.rest.first() {
        None => Err(Refusal::Tptp),
        Some(&b) if b == c => {
            here.pass(1);
            Ok(true)
        }
        Some(_) => Ok(false),
    }
}
