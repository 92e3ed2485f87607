// The numbers of terms in an environment, and comparisons of them.
ghost use Rattle.std.specs.Prelude.{◌≡◌, true, ◌++◌, ◌+◌, ◌*◌, ◌-◌, ◌^◌, ◌≤◌, ◌<◌, pos, length, replicate};
ghost use Rattle.model.specs.Words as W;
ghost use Rattle.model.specs.Lists.{all};
ghost use Rattle.model.specs.Reading.{places, term_at, in_scope};
ghost use Rattle.model.specs.Truth.{sum_at_most};
ghost use Rattle.model.specs.Listing as M;
ghost use Rattle.policies.specs.Standing.{terms_at};
ghost use Rattle.environments.specs.Environment.{Holds, numbers_of};

use crate::environment::Environment;
use policies::terms::Terms;

// The word at an index; past the end of a slice stands 0. A function of its own, so that callers have the word as `model` has it.
#[tactic(auto, unfolding(model::specs::Words::word))]
pub fn word(s: &[i32], i: usize) -> i32
    ensures { result ≡ W.word s.now i }
{
    s.get(i).copied().unwrap_or(0)
}

// The number of the term at an index, the variables having sixteen numbers.
pub fn number(numbers: &[i32], words: &[i32], at: usize) -> i32
    requires { (length numbers.now ≡ 16)
        × (at + 1 < 2 ^ 64)
        × (in_scope words.now 16 at ≡ true) }
    ensures { (e : M.Environment) →
        numbers.now ≡ numbers_of e →
        result ≡ M.number_in (M.look e (term_at words.now at)) }
{
    if words::is(words, at, 0) {
        return word(words, at + 1);
    }
    let x = words::value(words, at + 1);
    numbers[x]
}

// x + d is at most y, in whole numbers.
pub fn at_most(d: i32, x: i32, y: i32) -> bool
    ensures { result ≡ sum_at_most d x y }
{
    (x as i64) + (d as i64) <= (y as i64)
}

// The comparison at an index: the number of its first term, with d added, is at most that of its second.
pub fn compare(environment: Environment, words: &[i32], at: usize) -> bool
    requires { (at + 6 < 2 ^ 64) × (all (in_scope words.now 16) (places (at + 2) 2) ≡ true) }
    ensures { (e : M.Environment) →
        Holds environment e →
        result ≡ sum_at_most
        (W.word words.now (at + 1))
        (M.number_in (M.look e (term_at words.now (at + 2))))
        (M.number_in (M.look e (term_at words.now (at + 4)))) }
{
    let numbers = environment.numbers;
    let d = word(words, at + 1);
    let x = number(&numbers, words, at + 2);
    let y = number(&numbers, words, at + 4);
    at_most(d, x, y)
}

// The numbers of terms, and then zeros: they go into six words, all zero before.
pub fn arguments(numbers: &[i32], terms: Terms<'_>, arguments: &mut [i32])
    requires { (length numbers.now ≡ 16) × (arguments.old ≡ replicate 6 (pos 0)) }
    ensures { (e : M.Environment) →
        numbers.now ≡ numbers_of e →
        arguments.new ≡ M.numbers_in e (terms_at terms.entry.words.now terms.entry.first terms.entry.n) ++ replicate (6 - terms.entry.n) (pos 0) }
{
    for i in 0..terms.n {
        arguments[i] = number(numbers, terms.words, terms.first + 2 * i);
    }
}
