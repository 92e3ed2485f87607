// Rows of a log, written as lines of a text: a row's fields with commas between them, and CR LF behind.
ghost use Rattle.std.specs.Prelude.{◌≡◌, true, ◌≤◌, length};
ghost use Rattle.model.specs.Log.{good_row};
ghost use Rattle.text.specs.Adds.{Adds};
ghost use Rattle.csv_writing.specs.Row as R;

use model::ARGUMENTS_FROM;
use tables::accepted::AcceptedTable;
use tables::table;
use text::writer::Writer;

// The first words of a row, at least one, as fields with commas between them.
fn put_fields(row: &[i32], n: usize, w: &mut Writer<'_>)
    requires { n ≤ length row.now }
    ensures { Adds (R.fields_of row.now n) w.old w.new }
{
    w.word(row, 0);
    for i in 1..n {
        w.bytes(b",");
        w.word(row, i);
    }
}

// The line of a good row: as many fields as its predicate's arity wants, and CR LF.
pub fn put_row(table: AcceptedTable<'_>, row: &[i32], w: &mut Writer<'_>)
    requires { (length row.now ≡ 8) × (good_row table.words.now row.now ≡ true) }
    ensures { Adds (R.line_of table.entry.words.now row.now) w.old w.new }
{
    let n = ARGUMENTS_FROM + table::arity(table.words, words::value(row, 0));
    put_fields(row, n, w);
    w.bytes(b"\r\n");
}
