// Nodes with no node below them, as they stand in a text: plain true and false, atoms and comparisons. Their words go to the front of
// a small room of their own.
ghost use Rattle.std.specs.Prelude.{◌≡◌, cond, ◌≤◌, length};
ghost use Rattle.model.specs.TptpReading as R;
ghost use Rattle.tptp_leaves.specs.Room.{Kept};
ghost use Rattle.tptp_leaves.specs.Leaves as L;
ghost use Rattle.tptp_tokens.specs.Steps.{Valued};

use crate::own::Own;
use crate::terms::{term, terms};
use model::Refusal;
use text::bytes;
use text::cursor::Cursor;
use tptp_tokens::numbers::{integer, natural};
use tptp_tokens::tokens::{expect, literal, opening, skip, token};

// One of two numbers. A function of its own, since the callers' proofs cite its contract: an `if` at each call would leave its two ways to
// be joined in each goal behind it.
pub fn either(b: bool, x: usize, y: usize) -> usize
    ensures { result ≡ cond b x y }
{
    if b { x } else { y }
}

// An atom that holds, or fails.
fn predicate(
    here: &mut Cursor<'_>,
    room: usize,
    holds: bool,
    own: &mut Own<'_>,
) -> Result<(), Refusal>
    ensures kept { Kept own.old own.new }
    ensures reads { Valued (R.read_atom room holds) (L.LeafStands own.new.words.now) here.old here.new result }
{
    own.put(0, either(holds, 2, 3));
    expect(here, 112)?;
    let predicate = natural(here)?;
    own.put(1, predicate);
    opening(here, room)?;
    terms(here, own)?;
    expect(here, 41)
}

// The same, read from a copy of the place, which stays in registers: stored at each token, it cost a fifth more time.
fn atom(here: &mut Cursor<'_>, room: usize, holds: bool, own: &mut Own<'_>) -> Result<(), Refusal>
    ensures kept { Kept own.old own.new }
    ensures reads { Valued (R.read_atom room holds) (L.LeafStands own.new.words.now) here.old here.new result }
{
    let mut now = *here;
    let read = predicate(&mut now, room, holds, own);
    *here = now;
    read
}

// A comparison, or its negation, behind its name.
fn comparison(
    here: &mut Cursor<'_>,
    room: usize,
    holds: bool,
    own: &mut Own<'_>,
) -> Result<(), Refusal>
    ensures kept { Kept own.old own.new }
    ensures reads { Valued (R.read_compare room holds) (L.LeafStands own.new.words.now) here.old here.new result }
{
    own.put(0, either(holds, 4, 5));
    opening(here, room)?;
    token(here, b"$sum")?;
    opening(here, room.saturating_sub(1))?;
    own.put_term(2, term(here)?);
    expect(here, bytes::COMMA)?;
    own.put_number(1, integer(here)?);
    expect(here, 41)?;
    expect(here, bytes::COMMA)?;
    own.put_term(4, term(here)?);
    expect(here, 41)
}

// The same, read from a copy of the place as an atom is.
fn compare(
    here: &mut Cursor<'_>,
    room: usize,
    holds: bool,
    own: &mut Own<'_>,
) -> Result<(), Refusal>
    ensures kept { Kept own.old own.new }
    ensures reads { Valued (R.read_compare room holds) (L.LeafStands own.new.words.now) here.old here.new result }
{
    let mut now = *here;
    let read = comparison(&mut now, room, holds, own);
    *here = now;
    read
}

// Plain true or false, whose bytes stand here.
fn plain(here: &mut Cursor<'_>, value: bool, word: &[u8], own: &mut Own<'_>) -> Result<(), Refusal>
    requires { 1 ≤ length word.now }
    ensures kept { Kept own.old own.new }
    ensures reads { Valued (L.read_plain word.now value) (L.LeafStands own.new.words.now) here.old here.new result }
{
    own.put(0, either(value, 1, 0));
    literal(here, word)
}

// Behind a dollar: plain true or false, or a comparison.
fn dollar(here: &mut Cursor<'_>, room: usize, own: &mut Own<'_>) -> Result<(), Refusal>
    ensures kept { Kept own.old own.new }
    ensures reads { Valued (L.behind_dollar room) (L.LeafStands own.new.words.now) here.old here.new result }
{
    match here.rest.first() {
        Some(&116) => plain(here, true, b"true", own),
        Some(&102) => plain(here, false, b"false", own),
        _ => {
            literal(here, b"lesseq")?;
            compare(here, room, true, own)
        }
    }
}

// Behind a negation: an atom or a comparison.
fn negated(here: &mut Cursor<'_>, room: usize, own: &mut Own<'_>) -> Result<(), Refusal>
    ensures kept { Kept own.old own.new }
    ensures reads { Valued (L.behind_negation room) (L.LeafStands own.new.words.now) here.old here.new result }
{
    skip(here);
    if here.rest.first() == Some(&112) {
        return atom(here, room, false, own);
    }
    token(here, b"$lesseq")?;
    compare(here, room, false, own)
}

// A node with none below it, whose first byte stands here.
pub fn leaf(here: &mut Cursor<'_>, room: usize, own: &mut Own<'_>) -> Result<(), Refusal>
    requires { L.Unblank here.old.rest.now }
    ensures kept { Kept own.old own.new }
    ensures reads { Valued (L.read_leaf room) (L.LeafStands own.new.words.now) here.old here.new result }
{
    match here.rest.first() {
        Some(&36) => {
            here.pass(1);
            dollar(here, room, own)
        }
        Some(&112) => atom(here, room, true, own),
        Some(&126) => {
            here.pass(1);
            negated(here, room, own)
        }
        _ => Err(Refusal::Tptp),
    }
}
