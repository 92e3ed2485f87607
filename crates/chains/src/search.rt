// The search for the row of an atom, along the chain of the atom's key.
ghost use Rattle.std.specs.Prelude.{◌≡◌, length};
ghost use Rattle.model.specs.Lists.{span};
ghost use Rattle.model.specs.Log.{row_count};
ghost use Rattle.chains.specs.Key.{atom_key, row_key, atom_keys};
ghost use Rattle.chains.specs.Chain.{Chained};
ghost use Rattle.chains.specs.Search.{first_row};

use crate::key;
use model::{ARGUMENTS_FROM, ROW_WORDS};

// The first row of a log that holds the atom of a predicate at six arguments, the unused ones 0, from the atom's key on.
pub fn search(
    log: &[i32],
    links: &[u16],
    start: usize,
    predicate: usize,
    arguments: &[i32],
) -> Option<usize>
    requires { Chained (row_key log.now) atom_keys (row_count log.now) links.now
        × (length arguments.now ≡ 6)
        × (start ≡ atom_key predicate arguments.now 0) }
    ensures { result ≡ first_row log.now predicate arguments.now (span 0 (row_count log.now)) }
{
    let rows = log.len() / ROW_WORDS;
    let mut link = links[start] as usize;
    // By hand: each turn goes to where the link of its row leads.
    'rows: loop {
        if link == 0 {
            break 'rows None;
        }
        let row = rows - link;
        link = links[key::ATOM_KEYS + row] as usize;
        if !words::is(log, ROW_WORDS * row, predicate) {
            continue 'rows;
        }
        for i in 0..6 {
            if !words::same(log, ROW_WORDS * row + ARGUMENTS_FROM + i, arguments, i) {
                continue 'rows;
            }
        }
        break 'rows Some(row);
    }
}
