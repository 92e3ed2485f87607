// The value of a ground atom in a log.
ghost use Rattle.std.specs.Prelude.{◌≡◌, List, ◌++◌, ◌-◌, length, replicate, ℤ, pos};
ghost use Rattle.model.specs.Table.{arity};
ghost use Rattle.model.specs.Log.{rows, value_in};
ghost use Rattle.logs.specs.Value.{as_value};

use crate::accepted::KnownAtoms;
use chains::{key, search};
use model::ROW_WORDS;
use tables::table;

// The value of the atom of a predicate at six arguments, the unused ones 0, in an accepted log: what its row says; with no
// row, false if the predicate is complete, else None.
pub fn value_of(log: &KnownAtoms<'_>, predicate: usize, arguments: &[i32]) -> Option<bool>
    requires { length arguments.now ≡ 6 }
    ensures { (ns : List ℤ) →
        length ns ≡ arity log.now.table.now predicate →
        arguments.now ≡ ns ++ replicate (6 - length ns) (pos 0) →
        as_value result ≡ value_in log.now.table.now (rows log.now.rows.now) predicate ns }
{
    let start = key::of_atom(predicate, arguments, 0);
    match search::search(log.rows, log.links, start, predicate, arguments) {
        Some(row) => Some(words::is(log.rows, ROW_WORDS * row + 1, 1)),
        None => {
            if table::complete(log.table, predicate) {
                Some(false)
            } else {
                None
            }
        }
    }
}
