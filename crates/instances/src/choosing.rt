// The instances of a quantifier: the tuples of a list of environments that are not excluded, each once.
ghost use Rattle.std.specs.Prelude.{◌≡◌, ℕ, ◌+◌, ◌*◌, ◌≤◌, ◌<◌, length, take, drop, replicate};
ghost use Rattle.model.specs.Words.{member};
ghost use Rattle.environments.specs.Listed.{spaced};
ghost use Rattle.instances.specs.Keyed.{serves};
ghost use Rattle.instances.specs.Instances.{Chosen};

use crate::excluded::Excluded;
use crate::seen;
use crate::seen::Keys;
use environments::environment::Environment;
use environments::lists::copy_place;
use words::equal_words;

// Whether the tuple of v words at an index is one of m tuples, the first at `from`, each `step` words behind the one before.
fn stands(a: &[i32], at: usize, b: &[i32], from: usize, step: usize, m: usize, v: usize) -> bool
    requires { (at + v ≤ length a.now) × ((i : ℕ) → i < m → from + step * i + v ≤ length b.now) }
    ensures { result ≡ member (take v (drop at a.now)) (spaced b.now v from step m) }
{
    (0..m).any(|i| equal_words(a, at, b, from + step * i, v))
}

// The instances, each tuple compared with all that were seen before it. That the variables and the places fit is a clause, here and below:
// the table of keys asks for neither, and scratch is lent to and fro.
fn by_pairs(
    excluded: Excluded<'_>,
    scope: usize,
    scratch: &mut [i32],
    first: usize,
    count: usize,
) -> usize
    requires { (scope + excluded.v ≤ 16) × (17 * (first + count) ≤ length scratch.old) }
    ensures { Chosen excluded.entry.words.now excluded.entry.from excluded.entry.m excluded.entry.v scope scratch.old scratch.new first count result }
{
    let Excluded { words, from, m, v } = excluded;
    let start = Environment::WORDS * first + scope;
    let mut found = 0;
    for i in 0..count {
        let place = first + i;
        let at = Environment::WORDS * place + scope;
        if stands(scratch, at, words, from, v, m, v) {
            continue;
        }
        if stands(scratch, at, scratch, start, Environment::WORDS, found, v) {
            continue;
        }
        copy_place(scratch, place, first + found);
        found += 1;
    }
    found
}

// The instances, each tuple looked for by its key among those seen before it, in a table that is empty at first.
// Two functions: the loops differ in what tells a tuple seen, and in what becomes of one that is new.
fn choose(
    excluded: Excluded<'_>,
    scope: usize,
    scratch: &mut [i32],
    first: usize,
    count: usize,
    keys: &mut Keys,
) -> usize
    requires { (scope + excluded.v ≤ 16)
        × (17 * (first + count) ≤ length scratch.old)
        × (excluded.m + count ≤ 8192)
        × (keys.old.heads ≡ replicate 8192 0) }
    ensures { Chosen excluded.entry.words.now excluded.entry.from excluded.entry.m excluded.entry.v scope scratch.old scratch.new first count result }
{
    keys.enter_excluded(excluded);
    let start = Environment::WORDS * first + scope;
    let mut found = 0;
    for i in 0..count {
        let place = first + i;
        let target = first + found;
        let entry = excluded.m + found;
        let at = Environment::WORDS * place + scope;
        let key = seen::key(scratch, at, excluded.v);
        if keys.seen(excluded, scratch, start, entry, at, key) {
            continue;
        }
        keys.enter(key, entry);
        copy_place(scratch, place, target);
        found += 1;
    }
    found
}

// The instances by key. The table, of 32 KiB, is made here and only here.
fn by_key(
    excluded: Excluded<'_>,
    scope: usize,
    scratch: &mut [i32],
    first: usize,
    count: usize,
) -> usize
    requires { (scope + excluded.v ≤ 16) × (17 * (first + count) ≤ length scratch.old) × (excluded.m + count ≤ 8192) }
    ensures { Chosen excluded.entry.words.now excluded.entry.from excluded.entry.m excluded.entry.v scope scratch.old scratch.new first count result }
{
    let mut keys = Keys {
        heads: [0; 8192],
        links: [0; 8192],
    };
    choose(excluded, scope, scratch, first, count, &mut keys)
}

// Whether m excluded and `count` listed tuples are enough to make a table for, and not more than it has room for.
fn table_serves(m: usize, count: usize) -> bool
    ensures { result ≡ serves (m + count) }
{
    let n = m.saturating_add(count);
    32 < n && n <= 8192
}

// Of the `count` places from `first` on those of the instances go to the front, and their number is given: the tuples of the
// v variables from `scope` on that are not among the excluded ones, each once.
pub fn instances(
    excluded: Excluded<'_>,
    scope: usize,
    scratch: &mut [i32],
    first: usize,
    count: usize,
) -> usize
    requires { (scope + excluded.v ≤ 16) × (17 * (first + count) ≤ length scratch.old) }
    ensures { Chosen excluded.entry.words.now excluded.entry.from excluded.entry.m excluded.entry.v scope scratch.old scratch.new first count result }
{
    if table_serves(excluded.m, count) {
        return by_key(excluded, scope, scratch, first, count);
    }
    by_pairs(excluded, scope, scratch, first, count)
}
