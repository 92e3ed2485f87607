// The checks of a policy and of a log, which the calls make first.
#![tactic(auto)]

ghost use Rattle.std.specs.Prelude.{◌≡◌};
ghost use Rattle.model.specs.Answer.{AnswersAs};
ghost use Rattle.model.specs.Log.{ask_log};
ghost use Rattle.model.specs.Calls as C;
ghost use Rattle.tables.specs.Checked.{outcome};

use model::{Answer, ROW_WORDS, Refused};

// Check a policy over a table: questions 1 to 7. Accepted, the count is the greatest level.
pub fn check_policy(table: &[i32], policy: &[i32]) -> Answer
    ensures { AnswersAs (C.check_policy table.now policy.now) result }
{
    tables::table::check_table(table)?;
    let walked = policies::policy::ask_policy(table, policy)?;
    modes::mode::check_modes(table, policy)?;
    Ok(walked.level)
}

// Questions 8 to 10 of a log.
pub fn check_rows(table: &[i32], log: &[i32]) -> Result<(), Refused>
    ensures { outcome result ≡ ask_log table.now log.now }
{
    // An array, since no call takes memory.
    let mut links = [0; 20480];
    logs::log::check_log(table, log, &mut links)
}

// Check a log over a table: questions 1 and 8 to 10. Accepted, the count is the number of rows.
pub fn check_log(table: &[i32], log: &[i32]) -> Answer
    ensures { AnswersAs (C.check_log table.now log.now) result }
{
    tables::table::check_table(table)?;
    check_rows(table, log)?;
    Ok(log.len() / ROW_WORDS)
}
