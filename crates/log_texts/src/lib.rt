// Logs as comma-separated text, read to the front of a buffer and written there. What stands behind is left open.
#![tactic(auto)]

ghost use Rattle.std.specs.Prelude.{◌≡◌, ◌*◌, ◌≤◌, length};
ghost use Rattle.csv_reading.specs.Rows.{Stand};
ghost use Rattle.log_texts.specs.LogText as L;

use checks::{check_log, check_rows};
use csv_reading::rows::read_rows;
use csv_writing::write_rows;
use model::{Answer, ROW_WORDS, Refusal, Refused};
use tables::accepted::AcceptedTable;
use text::writing::written;

// Questions 8 to 10 of the rows of a text, so many, which are read to a place with room for them.
fn ask_apart(
    table: AcceptedTable<'_>,
    text: &[u8],
    words: &mut [i32],
    rows: usize,
) -> Result<(), Refused>
    requires { L.Spelled table.words.now text.now rows × (8 * rows ≤ length words.old) }
    ensures { L.AskedOf table.entry.words.now text.now result }
{
    let _ = read_rows(table, text, words);
    let n = ROW_WORDS * rows;
    check_rows(table.words, &words[..n])
}

// The answer about a text whose rows, so many, do not fit the buffer: question 10 is asked before 12.
fn no_room(table: AcceptedTable<'_>, text: &[u8], rows: usize) -> Answer
    requires { L.Spelled table.words.now text.now rows × (rows ≤ 4096) }
    ensures { L.NoRoom table.entry.words.now text.now result }
{
    // An array, since no call takes memory.
    let mut words = [0; 32768];
    ask_apart(table, text, &mut words, rows)?;
    Err(Refused(Refusal::Room, 0))
}

// The answer about a text of so many rows, which stand at the front of the buffer if they fit it.
fn settle_rows(table: AcceptedTable<'_>, text: &[u8], buffer: &[i32], rows: usize) -> Answer
    requires { Stand table.words.now text.now buffer.now rows }
    ensures { L.AnyRoom table.entry.words.now text.now (length buffer.now) result }
{
    if 4096 < rows {
        return Err(Refused(Refusal::LogLength, 0));
    }
    let n = ROW_WORDS * rows;
    if buffer.len() < n {
        return no_room(table, text, rows);
    }
    check_rows(table.words, &buffer[..n])?;
    Ok(rows)
}

// Questions 1, 13, 14, 8, 10 and 12 of a text.
pub fn read(table: &[i32], text: &[u8], buffer: &mut [i32]) -> Answer
    ensures { L.ReadsLog table.now text.now (length buffer.old) buffer.new result }
{
    tables::table::check_table(table)?;
    let table = AcceptedTable { words: table };
    let rows = read_rows(table, text, buffer)?;
    settle_rows(table, text, buffer, rows)
}

// Questions 1, 8 to 10 and 12 of a log.
pub fn write(table: &[i32], log: &[i32], buffer: &mut [u8]) -> Answer
    ensures { L.WritesLog table.now log.now (length buffer.old) buffer.new result }
{
    check_log(table, log)?;
    written(write_rows(AcceptedTable { words: table }, log, buffer))
}
