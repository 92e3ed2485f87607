// The calls of the auditor for other languages: each returns the number of its answer, 0 if accepted, and writes the count, or
// the place if refused, through `detail`.
#![tactic(auto)]

ghost use Rattle.std.specs.Prelude.{◌≡◌, length};
ghost use Rattle.model.specs.Answer.{number};
ghost use Rattle.model.specs.Calls as C;
ghost use Rattle.vitrinehawk.specs.Detail.{detailed};

use model::{Answer, Refused};

// The number of an accepted answer.
const ACCEPTED: u32 = 0;

// Writes the count of an answer, or its place if refused, and returns its number.
fn tell(answer: Answer, detail: &mut u64) -> u32
    ensures value { result ≡ number answer }
    ensures detail_after { detail.new ≡ detailed answer }
{
    match answer {
        Ok(count) => {
            *detail = count as u64;
            ACCEPTED
        }
        Err(Refused(refusal, place)) => {
            *detail = place as u64;
            u32::from(refusal)
        }
    }
}

// Checks a policy: questions 1 to 7. The count is its greatest level.
#[unsafe(no_mangle)]
pub extern "C" fn vh_check_policy(table: &[i32], policy: &[i32], detail: &mut u64) -> u32
    ensures value { result ≡ number (C.check_policy table.now policy.now) }
    ensures detail_after { detail.new ≡ detailed (C.check_policy table.now policy.now) }
{
    tell(auditor::check_policy(table, policy), detail)
}

// Checks a log: questions 1 and 8 to 10. The count is the number of its rows.
#[unsafe(no_mangle)]
pub extern "C" fn vh_check_log(table: &[i32], log: &[i32], detail: &mut u64) -> u32
    ensures value { result ≡ number (C.check_log table.now log.now) }
    ensures detail_after { detail.new ≡ detailed (C.check_log table.now log.now) }
{
    tell(auditor::check_log(table, log), detail)
}

// Writes the dual of a policy: questions 1 to 7 and 12. The count is its length. The rest of the buffer, or all of it if the
// call is refused, becomes zero.
#[unsafe(no_mangle)]
pub extern "C" fn vh_dual(
    table: &[i32],
    policy: &[i32],
    buffer: &mut [i32],
    detail: &mut u64,
) -> u32
    ensures value { result ≡ number (C.dual_call table.now policy.now (length buffer.old)).answer }
    ensures detail_after { detail.new
        ≡ detailed (C.dual_call table.now policy.now (length buffer.old)).answer }
    ensures buffer_after { buffer.new ≡ (C.dual_call table.now policy.now (length buffer.old)).buffer }
{
    tell(auditor::dual(table, policy, buffer), detail)
}

// Writes the residual of a policy over a log: questions 1 to 12. The count is its length. The rest of the buffer, or all of it if
// the call is refused, and all of scratch become zero.
#[unsafe(no_mangle)]
pub extern "C" fn vh_reduce(
    table: &[i32],
    policy: &[i32],
    log: &[i32],
    scratch: &mut [i32],
    buffer: &mut [i32],
    detail: &mut u64,
) -> u32
    ensures value { result
        ≡ number
        (C.reduce_call table.now policy.now log.now (length scratch.old) (length buffer.old)).answer }
    ensures detail_after { detail.new
        ≡ detailed
        (C.reduce_call table.now policy.now log.now (length scratch.old) (length buffer.old)).answer }
    ensures buffer_after { buffer.new
        ≡ (C.reduce_call table.now policy.now log.now (length scratch.old) (length buffer.old)).buffer }
    ensures scratch_after { scratch.new
        ≡ (C.reduce_call table.now policy.now log.now (length scratch.old) (length buffer.old)).scratch }
{
    tell(auditor::reduce(table, policy, log, scratch, buffer), detail)
}

// Reads a log from comma-separated text: questions 1, 13, 14, 8, 10 and 12. The count is the number of its rows. The rest of the
// buffer, or all of it if the call is refused, becomes zero.
#[unsafe(no_mangle)]
pub extern "C" fn vh_read_log(
    table: &[i32],
    text: &[u8],
    buffer: &mut [i32],
    detail: &mut u64,
) -> u32
    ensures value { result ≡ number (C.read_log_call table.now text.now (length buffer.old)).answer }
    ensures detail_after { detail.new
        ≡ detailed (C.read_log_call table.now text.now (length buffer.old)).answer }
    ensures buffer_after { buffer.new ≡ (C.read_log_call table.now text.now (length buffer.old)).buffer }
{
    tell(auditor::read_log(table, text, buffer), detail)
}

// Writes a log as comma-separated text: questions 1, 8 to 10 and 12. The count is the number of bytes. The rest of the buffer, or
// all of it if the call is refused, becomes zero.
#[unsafe(no_mangle)]
pub extern "C" fn vh_write_log(
    table: &[i32],
    log: &[i32],
    buffer: &mut [u8],
    detail: &mut u64,
) -> u32
    ensures value { result ≡ number (C.write_log_call table.now log.now (length buffer.old)).answer }
    ensures detail_after { detail.new
        ≡ detailed (C.write_log_call table.now log.now (length buffer.old)).answer }
    ensures buffer_after { buffer.new ≡ (C.write_log_call table.now log.now (length buffer.old)).buffer }
{
    tell(auditor::write_log(table, log, buffer), detail)
}

// Reads a policy from text in the TPTP typed form: questions 1, 15 (or 4, of parentheses), 2 to 7 of the words that it spells, and
// 12. The count is the number of words. The rest of the buffer, or all of it if the call is refused, becomes zero.
#[unsafe(no_mangle)]
pub extern "C" fn vh_read_policy(
    table: &[i32],
    text: &[u8],
    buffer: &mut [i32],
    detail: &mut u64,
) -> u32
    ensures value { result ≡ number (C.read_policy_call table.now text.now (length buffer.old)).answer }
    ensures detail_after { detail.new
        ≡ detailed (C.read_policy_call table.now text.now (length buffer.old)).answer }
    ensures buffer_after { buffer.new ≡ (C.read_policy_call table.now text.now (length buffer.old)).buffer }
{
    tell(auditor::read_policy(table, text, buffer), detail)
}

// Writes a policy as text in the TPTP typed form: questions 1 to 7 and 12. The count is the number of bytes. The rest of the
// buffer, or all of it if the call is refused, becomes zero.
#[unsafe(no_mangle)]
pub extern "C" fn vh_write_policy(
    table: &[i32],
    policy: &[i32],
    buffer: &mut [u8],
    detail: &mut u64,
) -> u32
    ensures value { result ≡ number (C.write_policy_call table.now policy.now (length buffer.old)).answer }
    ensures detail_after { detail.new
        ≡ detailed (C.write_policy_call table.now policy.now (length buffer.old)).answer }
    ensures buffer_after { buffer.new ≡ (C.write_policy_call table.now policy.now (length buffer.old)).buffer }
{
    tell(auditor::write_policy(table, policy, buffer), detail)
}
