// The value of a ground atom of a policy, its variables having the numbers of an environment.
ghost use Rattle.policies.specs.Standing.{HereTerms};
ghost use Rattle.matching.specs.Lookup.{Values};

use environments::environment::Environment;
use environments::terms;
use logs::accepted::KnownAtoms;
use logs::value;
use policies::terms::Terms;

// The value of the ground atom at an index, if the log knows it.
pub fn value_at(
    log: &KnownAtoms<'_>,
    words: &[i32],
    environment: Environment,
    at: usize,
) -> Option<bool>
    requires { HereTerms words.now at }
    ensures { Values log.now.table.now words.now log.now.rows.now environment at result }
{
    let predicate = words::value(words, at + 1);
    let n = words::value(words, at + 2);
    let numbers = environment.numbers;
    // An array, since no call takes memory.
    let mut arguments = [0; 6];
    let terms = Terms {
        words,
        first: at + 3,
        n,
    };
    terms::arguments(&numbers, terms, &mut arguments);
    value::value_of(log, predicate, &arguments)
}
