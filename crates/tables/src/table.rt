// The predicate table: its records, the only place that knows where their words stand, and question 1.
ghost use Rattle.std.specs.Prelude.{◌≡◌, ◌+◌, ◌*◌, ◌<◌, ◌≤◌, ◌^◌, ◌-◌};
ghost use Rattle.model.specs.Words as W;
ghost use Rattle.model.specs.Table as T;
ghost use Rattle.tables.specs.Checked.{outcome};

use model::{Refusal, Refused};

// The words of a record.
const RECORD_WORDS: usize = 3;

// At most so many predicates.
const PREDICATE_LIMIT: usize = 256;

// The number of predicates.
pub fn predicates(table: &[i32]) -> usize
    ensures { result ≡ T.predicates table.now }
{
    table.len() / RECORD_WORDS
}

// Where word k of a record stands; or an index past the end, where the table has no such record.
fn index(table: &[i32], p: usize, k: usize) -> usize
    requires { k < W.record_words }
    ensures { W.word table.now result ≡ W.word table.now (W.record_words * p + k) }
{
    if table.len() <= p {
        return p;
    }
    RECORD_WORDS * p + k
}

// The arity that a record gives.
pub fn arity(table: &[i32], p: usize) -> usize
    ensures { result ≡ T.arity table.now p }
{
    words::value(table, index(table, p, 0))
}

// Argument i of a predicate is an input.
pub fn input(table: &[i32], p: usize, i: usize) -> bool
    requires { i < 6 }
    ensures { result ≡ T.input table.now p i }
{
    (words::value(table, index(table, p, 1)) >> i) % 2 == 1
}

// A predicate is complete.
pub fn complete(table: &[i32], p: usize) -> bool
    ensures { result ≡ T.complete table.now p }
{
    words::is(table, index(table, p, 2), 1)
}

// The greatest mode mask of an arity.
fn masks(n: usize) -> usize
    requires { n ≤ 6 }
    ensures { result ≡ 2 ^ n - 1 }
{
    (1 << n) - 1
}

// One record is good: arity 1 to 6, no mode bit above the arity, complete 0 or 1.
fn good_record(table: &[i32], p: usize) -> bool
    requires { p < 256 }
    ensures { result ≡ T.good_record table.now p }
{
    if !words::within(table, RECORD_WORDS * p, 1, 6) {
        return false;
    }
    if !words::within(table, RECORD_WORDS * p + 1, 0, masks(arity(table, p))) {
        return false;
    }
    words::within(table, RECORD_WORDS * p + 2, 0, 1)
}

// Question 1.
pub fn check_table(table: &[i32]) -> Result<(), Refused>
    ensures { outcome result ≡ T.ask_table table.now }
{
    let n = table.len() / RECORD_WORDS;
    if table.len() % RECORD_WORDS != 0 {
        return Err(Refused(Refusal::Table, 0));
    }
    if n < 1 {
        return Err(Refused(Refusal::Table, 0));
    }
    if PREDICATE_LIMIT < n {
        return Err(Refused(Refusal::Table, 0));
    }
    for p in 0..n {
        if !good_record(table, p) {
            return Err(Refused(Refusal::Table, p));
        }
    }
    Ok(())
}
