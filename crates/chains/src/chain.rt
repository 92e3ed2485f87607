// Chains of rows by a key. The first of the links stand for the keys, those behind them for the rows. A link is the number of
// rows from a row to the end, so that links fall along a chain; 0 is the end of a chain.
ghost use Rattle.std.specs.Prelude.{◌≤◌, length};
ghost use Rattle.model.specs.Log.{row_count};
ghost use Rattle.chains.specs.Chain.{Empty, Chained};
ghost use Rattle.chains.specs.Key as K;

use crate::key;
use crate::key::Kind;
use crate::row::Row;
use model::ROW_WORDS;

// Link the rows of each key of a kind, in row order: from the last row to the first, each is put in front of the chain of its key.
// The keys of the rows are kept.
pub fn fill(kind: Kind, log: &[i32], keys: &mut [u16], links: &mut [u16])
    requires { (row_count log.now ≤ 4096)
        × (row_count log.now ≤ length keys.old)
        × Empty (K.heads kind) (row_count log.now) links.old }
    ensures keys { K.Keys (K.key_by kind) log.now keys.new }
    ensures chained { Chained (K.key_by kind log.now) (K.heads kind) (row_count log.now) links.new }
{
    let rows = log.len() / ROW_WORDS;
    let heads = key::heads(kind);
    for row in (0..rows).rev() {
        let key = key::of(kind, Row { log, number: row });
        keys[row] = key as u16;
        links[heads + row] = links[key];
        links[key] = (rows - row) as u16;
    }
}
