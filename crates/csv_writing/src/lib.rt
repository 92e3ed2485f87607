// Logs as comma-separated text: the writing of rows and logs into a buffer that may be too short.
#![tactic(auto)]

pub mod row;

ghost use Rattle.std.specs.Prelude.{◌≡◌};
ghost use Rattle.model.specs.Answer.{passed};
ghost use Rattle.model.specs.Log.{ask_log};
ghost use Rattle.model.specs.LogText.{log_text};
ghost use Rattle.text.specs.Put.{Writes};

use model::ROW_WORDS;
use tables::accepted::AcceptedTable;
use text::writer::Writer;

// An accepted log, written as text: a line for each row. What stands behind the text is left open.
pub fn write_rows(table: AcceptedTable<'_>, log: &[i32], out: &mut [u8]) -> Option<usize>
    requires { ask_log table.words.now log.now ≡ passed tt }
    ensures { Writes (log_text table.entry.words.now log.now) out.old out.new result }
{
    let mut w = Writer::new(out);
    for row in 0..log.len() / ROW_WORDS {
        w.put?;
        let at = ROW_WORDS * row;
        row::put_row(table, &log[at..at + ROW_WORDS], &mut w);
    }
    w.put
}
