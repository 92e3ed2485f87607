// Lists of environments in scratch, moved and changed place by place.
ghost use Rattle.std.specs.Prelude.{◌≡◌, List, ◌++◌, ◌+◌, ◌*◌, ◌≤◌, ◌<◌, length, take, drop};
ghost use Rattle.model.specs.Listing as M;
ghost use Rattle.environments.specs.Environment.{place_at};
ghost use Rattle.environments.specs.Listed.{Listed};
ghost use Rattle.environments.specs.Lists.{Moved, Released};

use crate::environment::Environment;

// A place of scratch is copied to one that stands not behind it. A function of its own: each caller's proof cites the whole scratch that it leaves.
pub fn copy_place(scratch: &mut [i32], source: usize, target: usize)
    requires { (target ≤ source) × (17 * source + 17 ≤ length scratch.old) }
    ensures { scratch.new ≡ take (17 * target) scratch.old ++ (place_at scratch.old source ++ drop (17 * target + 17) scratch.old) }
{
    if source == target {
        return;
    }
    let at = Environment::WORDS * source;
    scratch.copy_within(at..at + Environment::WORDS, Environment::WORDS * target);
}

// The `count` places from `from` on are moved down to those from `to` on.
pub fn move_list(scratch: &mut [i32], from: usize, count: usize, to: usize)
    requires { (to ≤ from) × (17 * (from + count) ≤ length scratch.old) }
    ensures { Moved scratch.old scratch.new from count to }
{
    if to == from {
        return;
    }
    let at = Environment::WORDS * from;
    scratch.copy_within(at..at + Environment::WORDS * count, Environment::WORDS * to);
}

// A variable is dropped in each of the `count` places from `from` on.
pub fn release_all(scratch: &mut [i32], from: usize, count: usize, variable: usize)
    requires { (variable < 16) × (17 * (from + count) ≤ length scratch.old) }
    ensures { (es : List M.Environment) →
        Listed scratch.old from es →
        length es ≡ count →
        Released variable scratch.old scratch.new from es }
{
    for i in 0..count {
        let environment = Environment::read(scratch, from + i);
        let released = environment.release(variable);
        released.store(scratch, from + i);
    }
}
