// Fields, as they stand in a text, and what stands behind them.
ghost use Rattle.std.specs.Prelude.{◌≡◌, true};
ghost use Rattle.csv_reading.specs.Field as F;

use model::{Refusal, Refused};
use text::bytes;
use text::cursor::Cursor;
use text::passing::passes;
use text::reading::number_at;

// The place of a byte that no allowed text has there, or of the text's end too early.
#[derive(Clone, Copy, PartialEq, Eq, Debug)]
pub struct BadByte(pub usize);

// It is refused by question 13.
impl From<BadByte> for Refused {
    ghost from_gives = { λ bad refused. refused ≡ F.csv_refused bad };

    fn from(bad: BadByte) -> Refused {
        Refused(Refusal::Csv, bad.0)
    }
}

// What stands behind a field: a comma, or the end of the record, which is CRLF or that of the text.
#[derive(Clone, Copy)]
pub enum End {
    Comma,
    Line,
}

// What is read where a field stands: the number that it is, if it is one; and what stands behind it.
#[derive(Clone, Copy)]
pub struct Field {
    pub value: Option<i32>,
    pub end: End,
}

// The bytes that can stand in a bare field are passed: how many.
fn bare(here: &mut Cursor<'_>) -> usize
    ensures { F.Bare here.old here.new result }
{
    // Most numbers fill their field, so that a comma comes first.
    if here.rest.first() == Some(&bytes::COMMA) {
        return 0;
    }
    let more = here
        .rest
        .iter()
        .take_while(|b| bytes::text_data(**b))
        .count();
    here.pass(more);
    more
}

// The rest of a field in quotes is passed, with the closing quote: how many bytes stand before that.
fn quoted(here: &mut Cursor<'_>) -> Result<usize, BadByte>
    ensures { F.Content true here.old here.new result }
{
    let mut i = 0;
    // By hand: a doubled quote is passed in one step.
    while i < here.rest.len() {
        let b = here.rest[i];
        if b == bytes::QUOTE {
            if here.rest.get(i + 1) != Some(&bytes::QUOTE) {
                here.pass(i + 1);
                return Ok(i);
            }
            i += 2;
        } else {
            if !bytes::quotable(b) {
                return Err(BadByte(here.at + i));
            }
            i += 1;
        }
    }
    Err(BadByte(here.at + i))
}

// The rest of a field that is bare or in quotes.
fn content(here: &mut Cursor<'_>, quotes: bool) -> Result<usize, BadByte>
    ensures { F.Content quotes here.old here.new result }
{
    if quotes {
        return quoted(here);
    }
    Ok(bare(here))
}

// What stands behind a field is passed.
fn ending(here: &mut Cursor<'_>) -> Result<End, BadByte>
    ensures { F.Ends here.old here.new result }
{
    if passes(here, bytes::COMMA) {
        return Ok(End::Comma);
    }
    if passes(here, bytes::CR) {
        if passes(here, bytes::LF) {
            return Ok(End::Line);
        }
        return Err(BadByte(here.at));
    }
    if here.rest.is_empty() {
        return Ok(End::Line);
    }
    Err(BadByte(here.at))
}

// The field that stands here is passed, with what stands behind it.
pub fn field_at(here: &mut Cursor<'_>) -> Result<Field, BadByte>
    ensures { F.FieldAt here.old here.new result }
{
    let quotes = passes(here, bytes::QUOTE);
    let number = number_at(here);
    let more = content(here, quotes)?;
    let value = if more == 0 { number } else { None };
    let end = ending(here)?;
    Ok(Field { value, end })
}
