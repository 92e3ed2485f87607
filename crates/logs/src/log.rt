// The log: questions 8, 9 and 10.
ghost use Rattle.std.specs.Prelude.{◌≡◌, true, ◌<◌, ◌≤◌, ◌*◌, ◌+◌, length, replicate};
ghost use Rattle.model.specs.Words as W;
ghost use Rattle.model.specs.Log as L;
ghost use Rattle.chains.specs.Chain.{Empty, Chained};
ghost use Rattle.chains.specs.Key.{row_key, atom_keys, Keys};
ghost use Rattle.tables.specs.Checked.{outcome};
ghost use Rattle.logs.specs.Log.{ask_rows, repeats_at, unused_from, Checks};

use chains::key::Kind;
use chains::{chain, search};
use model::{ARGUMENTS_FROM, ROW_WORDS, Refusal, Refused};
use tables::table;

// The arguments of a row from the n-th on are 0. All six are looked at, with no branch on the arity. A row is a slice of eight words by a
// clause, here and below: the compiler then knows its length.
fn unused(row: &[i32], n: usize) -> bool
    requires { length row.now ≡ 8 }
    ensures { result ≡ unused_from row.now n }
{
    let mut used = 0;
    for i in 0..6 {
        if !words::zero(row, ARGUMENTS_FROM + i) {
            used = i + 1;
        }
    }
    used <= n
}

// Question 9 of a row's words.
pub fn good_row(table: &[i32], row: &[i32]) -> bool
    requires { length row.now ≡ 8 }
    ensures { result ≡ L.good_row table.now row.now }
{
    if !words::below(row, 0, table::predicates(table)) {
        return false;
    }
    if !words::within(row, 1, 0, 1) {
        return false;
    }
    unused(row, table::arity(table, words::value(row, 0)))
}

// Question 10 at a row whose predicate is a number: the first row that holds its atom is an earlier one. A row that is the
// first of its key needs no search.
fn repeats(log: &[i32], keys: &[u16], links: &[u16], row: usize) -> bool
    requires { Keys row_key log.now keys.now
        × Chained (row_key log.now) atom_keys (L.row_count log.now) links.now
        × (row < L.row_count log.now)
        × (W.at_least 0 (W.word log.now (8 * row)) ≡ true) }
    ensures { result ≡ repeats_at log.now row }
{
    let at = ROW_WORDS * row;
    let start = keys[row] as usize;
    let head = log.len() / ROW_WORDS - links[start] as usize;
    if head == row {
        return false;
    }
    let found = search::search(
        log,
        links,
        start,
        words::value(log, at),
        &log[at + ARGUMENTS_FROM..at + ROW_WORDS],
    );
    match found {
        Some(first) => first < row,
        None => false,
    }
}

// Questions 9 and 10 at each row in turn.
fn ask_rows(table: &[i32], log: &[i32], keys: &[u16], links: &[u16]) -> Result<(), Refused>
    requires { Keys row_key log.now keys.now
        × Chained (row_key log.now) atom_keys (L.row_count log.now) links.now }
    ensures { outcome result ≡ ask_rows table.now log.now }
{
    let n = log.len() / ROW_WORDS;
    for row in 0..n {
        let at = ROW_WORDS * row;
        if !good_row(table, &log[at..at + ROW_WORDS]) {
            return Err(Refused(Refusal::Row, row));
        }
        if repeats(log, keys, links, row) {
            return Err(Refused(Refusal::Repeat, row));
        }
    }
    Ok(())
}

// Questions 9 and 10, over rows that are chained for it. The keys have room for those of the rows.
fn chain_and_check(
    table: &[i32],
    log: &[i32],
    keys: &mut [u16],
    links: &mut [u16],
) -> Result<(), Refused>
    requires { (L.row_count log.now ≤ 4096)
        × (L.row_count log.now ≤ length keys.old)
        × Empty atom_keys (L.row_count log.now) links.old }
    ensures result_value { outcome result ≡ ask_rows table.now log.now }
    ensures chained { Chained (row_key log.now) atom_keys (L.row_count log.now) links.new }
{
    chain::fill(Kind::Atom, log, keys, links);
    ask_rows(table, log, keys, links)
}

// Questions 8, 9 and 10. The links, all 0 at first, chain the rows by their atoms unless question 8 refuses.
pub fn check_log(table: &[i32], log: &[i32], links: &mut [u16]) -> Result<(), Refused>
    requires { links.old ≡ replicate 20480 0 }
    ensures { Checks table.now log.now links.new result }
{
    if log.len() % ROW_WORDS != 0 {
        return Err(Refused(Refusal::LogLength, 0));
    }
    if 4096 < log.len() / ROW_WORDS {
        return Err(Refused(Refusal::LogLength, 0));
    }
    // An array, since no call takes memory.
    let mut keys = [0; 4096];
    chain_and_check(table, log, &mut keys, links)
}
