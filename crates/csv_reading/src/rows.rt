// The rows that the records of a text spell: questions 13 and 14.
ghost use Rattle.csv_reading.specs.Rows as R;

use crate::record::record;
use model::{ROW_WORDS, Refusal, Refused};
use tables::accepted::AcceptedTable;
use text::cursor::Cursor;

// A row goes behind so many rows, if these have room for it.
fn place(rows: &mut [i32], count: usize, row: [i32; ROW_WORDS])
    ensures { R.Placed count row rows.old rows.new }
{
    if count < rows.len() / ROW_WORDS {
        let from = ROW_WORDS * count;
        rows[from..from + ROW_WORDS].copy_from_slice(&row);
    }
}

// Questions 13 and 14, and the number of rows. These stand in the slice, if they fit it.
pub fn read_rows(table: AcceptedTable<'_>, text: &[u8], rows: &mut [i32]) -> Result<usize, Refused>
    ensures { R.RowsRead table.entry.words.now text.now rows.new result }
{
    let mut here = Cursor::new(text);
    let mut count = 0;
    let mut bad = None;
    // By hand: the step is the record that stands there.
    while !here.rest.is_empty() {
        match record(table, &mut here)? {
            Some(row) => place(rows, count, row),
            None => bad = bad.or(Some(count)),
        }
        count += 1;
    }
    match bad {
        Some(place) => Err(Refused(Refusal::Record, place)),
        None => Ok(count),
    }
}
