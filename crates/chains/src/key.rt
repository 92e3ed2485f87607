// The keys of rows: by atom, and of the true ones by predicate, alone and with their first argument.
ghost use Rattle.std.specs.Prelude.{◌≡◌, ◌+◌, ◌≤◌, ◌<◌, length};
ghost use Rattle.model.specs.Words as W;
ghost use Rattle.chains.specs.Key as K;

use crate::row::Row;
use model::{ARGUMENTS_FROM, ROW_WORDS};

// By what rows are chained: all of them by their atoms; the true ones by their predicates; the true ones by their predicates and
// first arguments.
#[derive(Clone, Copy)]
pub enum Kind {
    Atom,
    Predicate,
    First,
}

// So many keys of atoms; as many predicates as there can be, with one key more for the rows that a listing passes over.
pub const ATOM_KEYS: usize = 16384;

pub const PREDICATE_KEYS: usize = 257;

// So many keys of a predicate with its first argument, with one key more for the rows that a listing passes over.
pub const FIRST_KEYS: usize = 4097;

// The key of the atom of a predicate, whose six arguments stand at an index.
pub fn of_atom(predicate: usize, words: &[i32], at: usize) -> usize
    requires { at + 6 ≤ length words.now }
    ensures { result ≡ K.atom_key predicate words.now at }
{
    let p = predicate % 256 * 331804471;
    let a = words::offset(words, at) % 4294967296 * 442291847;
    let b = words::offset(words, at + 1) % 4294967296 * 349421991;
    let c = words::offset(words, at + 2) % 4294967296 * 480404705;
    let d = words::offset(words, at + 3) % 4294967296 * 294359035;
    let e = words::offset(words, at + 4) % 4294967296 * 307324391;
    let f = words::offset(words, at + 5) % 4294967296 * 318971139;
    (p + a + b + c + d + e + f) / 32768 % ATOM_KEYS
}

// The predicate of a row that says true; 256 of any other row.
fn of_true(row: Row<'_>) -> usize
    ensures { result ≡ K.true_key row.entry.log.now row.entry.number }
{
    let Row { log, number } = row;
    if !words::is(log, ROW_WORDS * number + 1, 1) {
        return 256;
    }
    if !words::below(log, ROW_WORDS * number, 256) {
        return 256;
    }
    words::value(log, ROW_WORDS * number)
}

// The key of a predicate with the number at an index as its first argument.
pub fn of_first(predicate: usize, words: &[i32], at: usize) -> usize
    requires { at < length words.now }
    ensures { result ≡ K.first_spread predicate (W.word words.now at) }
{
    let p = predicate % 256 * 331804471;
    let a = words::offset(words, at) % 4294967296 * 442291847;
    (p + a) / 32768 % 4096
}

// The key of a row that says true, by its predicate and its first argument; 4,096 of any other row.
fn of_row(row: Row<'_>) -> usize
    ensures { result ≡ K.first_key row.entry.log.now row.entry.number }
{
    let Row { log, number } = row;
    if !words::is(log, ROW_WORDS * number + 1, 1) {
        return 4096;
    }
    of_first(
        words::value(log, ROW_WORDS * number),
        log,
        ROW_WORDS * number + ARGUMENTS_FROM,
    )
}

// The key of a row, of either kind. By a kind: `fill`, given a closure for it, would ask in each clause what is the contract here.
pub fn of(kind: Kind, row: Row<'_>) -> usize
    ensures { result ≡ K.key_by kind row.entry.log.now row.entry.number }
{
    let Row { log, number } = row;
    match kind {
        Kind::Atom => of_atom(
            words::value(log, ROW_WORDS * number),
            log,
            ROW_WORDS * number + ARGUMENTS_FROM,
        ),
        Kind::Predicate => of_true(row),
        Kind::First => of_row(row),
    }
}

// How many keys of a kind there are.
pub fn heads(kind: Kind) -> usize
    ensures { result ≡ K.heads kind }
{
    match kind {
        Kind::Atom => ATOM_KEYS,
        Kind::Predicate => PREDICATE_KEYS,
        Kind::First => FIRST_KEYS,
    }
}
