// Rows of the log matched against the terms of an atom.
ghost use Rattle.std.specs.Prelude.{◌≡◌, true, false, ◌+◌, ◌*◌, ◌^◌, ◌≤◌, ◌<◌, length};
ghost use Rattle.model.specs.Lists.{all};
ghost use Rattle.model.specs.Log.{row_at, arguments};
ghost use Rattle.model.specs.Reading.{places, in_scope};
ghost use Rattle.model.specs.Listing as M;
ghost use Rattle.policies.specs.Standing.{terms_at};
ghost use Rattle.environments.specs.Environment.{Holds};
ghost use Rattle.matching.specs.Fitting.{Fitted};

use chains::row::Row;
use environments::environment::Environment;
use environments::terms;
use model::{ARGUMENTS_FROM, ROW_WORDS};
use policies::terms::Terms;

// The environment that the arguments of a row make, set against terms: None, where one of them is unequal. The row is left at the first.
pub fn fit_row(environment: Environment, terms: Terms<'_>, row: Row<'_>) -> Option<Environment>
    ensures { (e : M.Environment) →
        Holds environment e →
        Fitted (M.fit (terms_at terms.entry.words.now terms.entry.first terms.entry.n) (arguments (row_at row.entry.log.now row.entry.number)) e) result }
{
    let mut bound = environment;
    for i in 0..terms.n {
        let at = terms.first + 2 * i;
        let argument = row.log[ROW_WORDS * row.number + ARGUMENTS_FROM + i];
        if words::is(terms.words, at, 0) {
            if terms::word(terms.words, at + 1) == argument {
                continue;
            }
            return None;
        }
        let x = words::value(terms.words, at + 1);
        if !bound.marks[x] {
            bound = bound.bind(x, argument);
            continue;
        }
        if bound.numbers[x] != argument {
            return None;
        }
    }
    Some(bound)
}
