// A whole text: its tree, with the questions that are asked of its words, and these laid in a buffer.
ghost use Rattle.tptp_tokens.specs.Steps.{Steps};
ghost use Rattle.tptp_reading.specs.Policy as P;

use crate::formula::whole;
use model::{Refusal, Refused};
use modes::marks::Marks;
use policies::node::Role;
use text::bytes;
use text::cursor::Cursor;
use tptp_state::state::State;
use tptp_tokens::name::name;
use tptp_tokens::tokens::{expect, skip, token};

// How many parentheses can be open inside the first.
const ROOM: usize = 255;

// The end of a text, behind blanks.
fn ended(here: &mut Cursor<'_>) -> Result<(), Refusal>
    ensures { Steps P.blanks_ending here.old here.new result }
{
    skip(here);
    if !here.rest.is_empty() {
        return Err(Refusal::Tptp);
    }
    Ok(())
}

// A whole text from a place on: what is known behind it.
fn whole_text(table: &[i32], here: &mut Cursor<'_>, out: &mut [i32]) -> Result<State, Refusal>
    ensures { P.TextRead table.now out.old out.new here.old here.new result }
{
    token(here, b"tff")?;
    expect(here, 40)?;
    name(here)?;
    expect(here, bytes::COMMA)?;
    token(here, b"axiom")?;
    expect(here, bytes::COMMA)?;
    let mut state = State {
        words: 0,
        asked: Ok(()),
        moded: Ok(()),
        set: Marks::NONE,
    };
    whole(table, here, ROOM, Role::Formula, 0, 0, &mut state, out)?;
    expect(here, 46)?;
    ended(here)?;
    Ok(state)
}

// A text, over a table that was checked: what is known behind it.
pub fn policy(table: &[i32], text: &[u8], out: &mut [i32]) -> Result<State, Refused>
    ensures { P.PolicyRead table.now text.now out.old out.new result }
{
    let mut here = Cursor::new(text);
    match whole_text(table, &mut here, out) {
        Ok(state) => Ok(state),
        Err(refusal) => Err(Refused(refusal, here.at)),
    }
}
