// One byte of a text that is read front to back.
ghost use Rattle.text.specs.Passing.{Passes};

use crate::cursor::Cursor;

// This byte is passed, if it stands here.
pub fn passes(here: &mut Cursor<'_>, b: u8) -> bool
    ensures { Passes b here.old here.new result }
{
    if here.rest.first() != Some(&b) {
        return false;
    }
    here.pass(1);
    true
}
