// The reduction of ground atoms and comparisons, all of whose variables are outer ones, and the environment of an instance.
ghost use Rattle.std.specs.Prelude.{List, ◌++◌, ◌+◌, ◌*◌, ◌≤◌, length, take, drop, ℤ};
ghost use Rattle.nodes.specs.Ground.{Outer, HereLiteral, GrownAtom, HereCompare, Stays, ReducesAtom, ReducesCompare};

use environments::environment::Environment;
use environments::terms;
use joining::answer::Reduced;
use logs::accepted::{AcceptedLog, KnownAtoms};
use matching::lookup;
use trees::putting;
use words::copying;

// The atom at an index stays, with the outer numbers put in, if it fits.
fn stay(
    words: &[i32],
    environment: Environment,
    scope: usize,
    at: usize,
    out: &mut [i32],
) -> Reduced
    requires { (scope ≤ 16) × GrownAtom words.now at }
    ensures { Stays words.now environment scope at out.old out.new result }
{
    let size = 3 + 2 * words::value(words, at + 2);
    if out.len() < size {
        return Reduced::Long;
    }
    if scope == 0 {
        copying::copy_words(words, at, size, out, 0);
        return Reduced::Part(size);
    }
    let numbers = environment.numbers;
    putting::copy(numbers, scope, words, at, out);
    Reduced::Part(size)
}

// The atom at an index, which holds or fails: plain if its value is known, else it stays.
pub fn atom(
    log: &AcceptedLog<'_>,
    words: &[i32],
    environment: Environment,
    scope: usize,
    holds: bool,
    at: usize,
    out: &mut [i32],
) -> Reduced
    requires { (scope ≤ 16)
        × HereLiteral log.now.table.now words.now scope holds at }
    ensures { ReducesAtom log.now.table.now words.now log.now.rows.now environment scope holds at out.old out.new result }
{
    let atoms = KnownAtoms {
        table: log.table,
        rows: log.rows,
        links: log.links,
    };
    let found = lookup::value_at(&atoms, words, environment, at);
    match found {
        Some(value) => Reduced::Plain(value == holds),
        None => stay(words, environment, scope, at, out),
    }
}

// The comparison at an index, which is to hold or to fail.
pub fn compare(words: &[i32], environment: Environment, holds: bool, at: usize) -> Reduced
    requires { HereCompare words.now holds at }
    ensures { ReducesCompare words.now environment holds at result }
{
    Reduced::Plain(holds == terms::compare(environment, words, at))
}

// The environment with v variables more, bound to the numbers of an instance in a place of scratch. A loop, since copies of a length that is
// not known before are calls of their own.
pub fn instance(
    environment: Environment,
    scratch: &[i32],
    place: usize,
    scope: usize,
    v: usize,
) -> Environment
    requires { (scope + v ≤ 16) × (17 * place + 17 ≤ length scratch.now) }
    ensures { (ρ : List ℤ) →
        Outer environment scope ρ →
        Outer result (scope + v) (ρ ++ take v (drop (17 * place + scope) scratch.now)) }
{
    let from = Environment::WORDS * place + scope;
    let mut bound = environment;
    for i in 0..v {
        bound.numbers[scope + i] = scratch[from + i];
        bound.marks[scope + i] = true;
    }
    bound
}
