// The public calls of the auditor. Each makes every check itself and answers as model's definition of it says.
#![tactic(auto)]

ghost use Rattle.std.specs.Prelude.{◌≡◌, length};
ghost use Rattle.model.specs.Answer.{count, AnswersAs};
ghost use Rattle.model.specs.Calls as C;
ghost use Rattle.auditor.specs.Reduce.{Reduces};

use model::{Answer, ROW_WORDS, Refusal, Refused};
use residuals::residual::residual;
use words::clearing::clear;

// Check a policy over a table: questions 1 to 7. Accepted, the count is the greatest level.
pub fn check_policy(table: &[i32], policy: &[i32]) -> Answer
    ensures { AnswersAs (C.check_policy table.now policy.now) result }
{
    checks::check_policy(table, policy)
}

// Check a log over a table: questions 1 and 8 to 10. Accepted, the count is the number of rows.
pub fn check_log(table: &[i32], log: &[i32]) -> Answer
    ensures { AnswersAs (C.check_log table.now log.now) result }
{
    checks::check_log(table, log)
}

// Write the dual of a policy over a table: questions 1 to 7 and 12. Accepted, the count is its length.
pub fn dual(table: &[i32], policy: &[i32], buffer: &mut [i32]) -> Answer
    ensures answers_as { AnswersAs (C.dual_call table.now policy.now (length buffer.old)).answer result }
    ensures buffer_after { buffer.new ≡ (C.dual_call table.now policy.now (length buffer.old)).buffer }
{
    if let Err(refused) = checks::check_policy(table, policy) {
        clear(buffer, 0, 0);
        return Err(refused);
    }
    if buffer.len() < policy.len() {
        clear(buffer, 0, 0);
        return Err(Refused(Refusal::Room, 0));
    }
    duals::dual_words::write_dual(policy, buffer);
    Ok(policy.len())
}

// How many words of a buffer an answer counts: none, if it is a refusal.
fn counted(answer: Answer) -> usize
    ensures { result ≡ count answer }
{
    answer.unwrap_or(0)
}

// Write the residual of a policy over a log: questions 1 to 12. Accepted, the count is its length.
pub fn reduce(
    table: &[i32],
    policy: &[i32],
    log: &[i32],
    scratch: &mut [i32],
    buffer: &mut [i32],
) -> Answer
    ensures { Reduces table.now policy.now log.now scratch.old buffer.old result scratch.new buffer.new }
{
    let answer = residual(table, policy, log, scratch, buffer);
    clear(scratch, 0, 0);
    clear(buffer, counted(answer), 0);
    answer
}

// Read a log from comma-separated text over a table: questions 1, 13, 14, 8, 10 and 12. Accepted, the count is the number of rows.
pub fn read_log(table: &[i32], text: &[u8], buffer: &mut [i32]) -> Answer
    ensures answers_as { AnswersAs (C.read_log_call table.now text.now (length buffer.old)).answer result }
    ensures buffer_after { buffer.new ≡ (C.read_log_call table.now text.now (length buffer.old)).buffer }
{
    let answer = log_texts::read(table, text, buffer);
    clear(buffer, ROW_WORDS * counted(answer), 0);
    answer
}

// Write a log as comma-separated text: questions 1, 8 to 10 and 12. Accepted, the count is the number of bytes.
// This call and the two below are of one form: a function for all three would take a closure, and a contract more than it spares.
pub fn write_log(table: &[i32], log: &[i32], buffer: &mut [u8]) -> Answer
    ensures answers_as { AnswersAs (C.write_log_call table.now log.now (length buffer.old)).answer result }
    ensures buffer_after { buffer.new ≡ (C.write_log_call table.now log.now (length buffer.old)).buffer }
{
    let text = log_texts::write(table, log, buffer);
    clear(buffer, counted(text), 0);
    text
}

// Read a policy from text in the TPTP typed form over a table: questions 1, 15 (or 4, of parentheses), 2 to 7 of the words that it
// spells, and 12. Accepted, the count is the number of words.
pub fn read_policy(table: &[i32], text: &[u8], buffer: &mut [i32]) -> Answer
    ensures answers_as { AnswersAs (C.read_policy_call table.now text.now (length buffer.old)).answer result }
    ensures buffer_after { buffer.new ≡ (C.read_policy_call table.now text.now (length buffer.old)).buffer }
{
    let answer = policy_texts::read(table, text, buffer);
    clear(buffer, counted(answer), 0);
    answer
}

// Write a policy as text in the TPTP typed form: questions 1 to 7 and 12. Accepted, the count is the number of bytes.
pub fn write_policy(table: &[i32], policy: &[i32], buffer: &mut [u8]) -> Answer
    ensures answers_as { AnswersAs (C.write_policy_call table.now policy.now (length buffer.old)).answer result }
    ensures buffer_after { buffer.new ≡ (C.write_policy_call table.now policy.now (length buffer.old)).buffer }
{
    let written = policy_texts::write(table, policy, buffer);
    clear(buffer, counted(written), 0);
    written
}
