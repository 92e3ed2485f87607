// All links of a log, in one slice: by atom, then those of the true rows by predicate, then by predicate and first argument.
ghost use Rattle.std.specs.Prelude.{◌≡◌, ◌≤◌, length, replicate};
ghost use Rattle.model.specs.Log.{row_count};
ghost use Rattle.logs.specs.Links.{TrueRows, Links};

use crate::log;
use chains::chain;
use chains::key::Kind;
use model::Refused;

// Where the links by predicate begin, and those by first argument; how many are between; and how many links there are.
pub const PREDICATE_FROM: usize = 20480;

pub const FIRST_FROM: usize = 24833;

const BETWEEN: usize = 4353;

pub const LINKS: usize = 33026;

// The true rows of a log, chained by predicate and, behind those links, by predicate and first argument. The keys have room for
// those of the rows.
fn chain_true(log: &[i32], keys: &mut [u16], links: &mut [u16])
    requires { (row_count log.now ≤ 4096) × (row_count log.now ≤ length keys.old) × (links.old ≡ replicate 12546 0) }
    ensures { TrueRows log.now links.new }
{
    chain::fill(Kind::Predicate, log, keys, &mut links[..BETWEEN]);
    chain::fill(Kind::First, log, keys, &mut links[BETWEEN..]);
}

// The same, over a log of at most 4,096 rows. That they are no more is a clause from here down to `fill`: only the number of rows is bound,
// and a type would hold one slice.
fn link_true(log: &[i32], links: &mut [u16])
    requires { (row_count log.now ≤ 4096) × (links.old ≡ replicate 12546 0) }
    ensures { TrueRows log.now links.new }
{
    // An array, since no call takes memory.
    let mut keys = [0; 4096];
    chain_true(log, &mut keys, links);
}

// Questions 8, 9 and 10. The links, all 0 at first, are those of the log if it passes.
pub fn check_and_link(table: &[i32], log: &[i32], links: &mut [u16]) -> Result<(), Refused>
    requires { links.old ≡ replicate 33026 0 }
    ensures { Links table.now log.now links.new result }
{
    log::check_log(table, log, &mut links[..PREDICATE_FROM])?;
    link_true(log, &mut links[PREDICATE_FROM..]);
    Ok(())
}
