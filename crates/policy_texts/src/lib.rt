// Policies as text in the TPTP typed form, read to the front of a buffer and written there. What stands behind is left open.
#![tactic(auto)]

ghost use Rattle.std.specs.Prelude.{◌≡◌, length};
ghost use Rattle.model.specs.Answer.{answer};
ghost use Rattle.policy_texts.specs.PolicyText.{settled_policy, ReadsPolicy, WritesPolicy};

use checks::check_policy;
use model::{Answer, POLICY_LIMIT, Refusal, Refused};
use text::writing::written;
use tptp_reading::policy::policy;
use tptp_state::state::State;
use tptp_writing::write_tree;

// Questions 2, 4 to 7 and 12 of a text that was read, by what is known behind it, over a buffer of so many words.
fn settle(state: State, room: usize) -> Answer
    ensures { result ≡ answer (λ _. state.words) (settled_policy room state) }
{
    if POLICY_LIMIT < state.words {
        return Err(Refused(Refusal::PolicyLength, 0));
    }
    state.asked?;
    state.moded?;
    if room < state.words {
        return Err(Refused(Refusal::Room, 0));
    }
    Ok(state.words)
}

// Questions 1, 15 (or 4, of parentheses), 2 to 7 and 12 of a text.
pub fn read(table: &[i32], text: &[u8], buffer: &mut [i32]) -> Answer
    ensures { ReadsPolicy table.now text.now (length buffer.old) buffer.new result }
{
    tables::table::check_table(table)?;
    let state = policy(table, text, buffer)?;
    settle(state, buffer.len())
}

// Questions 1 to 7 and 12 of a policy.
pub fn write(table: &[i32], policy: &[i32], buffer: &mut [u8]) -> Answer
    ensures { WritesPolicy table.now policy.now (length buffer.old) buffer.new result }
{
    check_policy(table, policy)?;
    written(write_tree(table, policy, buffer))
}
