// Records, as they stand in a text, and the rows that they spell.
ghost use Rattle.std.specs.Prelude.{◌≡◌, ◌≤◌, length};
ghost use Rattle.csv_reading.specs.Record as R;

use crate::field::{BadByte, End, Field, field_at};
use logs::log;
use model::{ARGUMENTS_FROM, ROW_WORDS};
use tables::accepted::AcceptedTable;
use tables::table;
use text::cursor::Cursor;

// A field becomes a word of a row, if it is a number and the row has that word.
fn put_field(row: &mut [i32], k: usize, field: Option<i32>) -> bool
    ensures { R.Put field k row.old row.new result }
{
    let Some(value) = field else {
        return false;
    };
    if row.len() <= k {
        return false;
    }
    row[k] = value;
    true
}

// Question 14 of a record whose fields, so many, are numbers and make this row.
fn spells(table: AcceptedTable<'_>, row: &[i32], fields: usize) -> bool
    requires { length row.now ≡ 8 }
    ensures { R.RowAsked table.entry.words.now row.now fields result }
{
    if !log::good_row(table.words, row) {
        return false;
    }
    fields == ARGUMENTS_FROM + table::arity(table.words, words::value(row, 0))
}

// The record that stands here is passed: the row that it spells, if it spells one.
pub fn record(
    table: AcceptedTable<'_>,
    here: &mut Cursor<'_>,
) -> Result<Option<[i32; ROW_WORDS]>, BadByte>
    requires { 1 ≤ length here.old.rest.now }
    ensures { R.RecordAt table.entry.words.now here.old here.new result }
{
    let mut row = [0; ROW_WORDS];
    let mut fields = 0;
    let mut good = true;
    // By hand: the field that was read says whether another one follows.
    loop {
        let Field { value, end } = field_at(here)?;
        good = good & put_field(&mut row, fields, value);
        fields += 1;
        match end {
            End::Comma => {}
            End::Line => {
                if !good {
                    return Ok(None);
                }
                if !spells(table, &row, fields) {
                    return Ok(None);
                }
                return Ok(Some(row));
            }
        }
    }
}
