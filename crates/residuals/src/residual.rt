// The residual of a policy over a log, at the front of a buffer: questions 1 to 12, in their order.
ghost use Rattle.std.specs.Prelude.{◌≡◌, ℕ, ◌/◌, ◌≤◌, length, replicate, []};
ghost use Rattle.model.specs.Words.{place_words};
ghost use Rattle.model.specs.Level as L;
ghost use Rattle.model.specs.Tree.{Tree, plain};
ghost use Rattle.model.specs.Log.{rows};
ghost use Rattle.model.specs.Reduction.{reduce, need};
ghost use Rattle.model.specs.Calls.{write, ask_reduction};
ghost use Rattle.laws.specs.Reading.Nodes.{Node};
ghost use Rattle.policies.specs.Standing.{Here};
ghost use Rattle.checks.specs.Accepts.{Accepts};
ghost use Rattle.residuals.specs.Residual as R;

use checks::check_policy;
use environments::environment::Environment;
use joining::answer::Reduced;
use logs::accepted::AcceptedLog;
use logs::links;
use model::{Answer, POLICY_LIMIT, Refusal, Refused};
use nodes::outer::Outer;
use policies::node::Role;
use reduction::walk;

// So many words of a buffer are lent to the walk: no residual has more. A function of its own, since the caller's proof names the number.
fn lendable(words: usize) -> usize
    ensures { result ≡ R.lendable words }
{
    words.min(POLICY_LIMIT)
}

// The walk of an accepted policy over an accepted log.
fn walk_policy(
    log: &AcceptedLog<'_>,
    policy: &[i32],
    scratch: &mut [i32],
    buffer: &mut [i32],
) -> Reduced
    requires { Here log.now.table.now policy.now L.Role.formula 0 0 0 }
    ensures { (tree : Tree) (next : ℕ) →
        Node log.now.table.now policy.now L.Role.formula 0 0 0 tree next →
        R.Walked (length scratch.old / place_words) (need log.now.table.now (rows log.now.rows.now) tree []) (reduce log.now.table.now (rows log.now.rows.now) tree []) buffer.new result }
{
    let room = lendable(buffer.len());
    let outer = Outer {
        environment: Environment::empty(),
        scope: 0,
    };
    let walked = walk::formula(
        log,
        policy,
        scratch,
        &mut buffer[..room],
        &outer,
        Role::Formula,
        0,
        0,
    );
    walked.answer
}

// A plain residual has one word.
fn write_plain(value: bool, buffer: &mut [i32]) -> Answer
    ensures { R.Leaves (write (length buffer.old) (plain value)) (length buffer.old) buffer.new result }
{
    if buffer.is_empty() {
        return Err(Refused(Refusal::Room, 0));
    }
    buffer[0] = i32::from(value);
    Ok(1)
}

// Questions 11 and 12, from what the walk answered.
fn settle(reduced: Reduced, buffer: &mut [i32]) -> Answer
    ensures { (places need : ℕ) (tree : Tree) →
        R.Walked places need tree buffer.old reduced →
        R.Leaves (R.settled places need (length buffer.old) tree) (length buffer.old) buffer.new result }
{
    match reduced {
        Reduced::Short => Err(Refused(Refusal::Scratch, 0)),
        Reduced::Plain(value) => write_plain(value, buffer),
        Reduced::Long => Err(Refused(Refusal::Room, 0)),
        Reduced::Part(words) => Ok(words),
    }
}

// Questions 8 to 12 of an accepted policy. The links are still 0.
fn over_log(
    table: &[i32],
    policy: &[i32],
    log: &[i32],
    links: &mut [u16],
    scratch: &mut [i32],
    buffer: &mut [i32],
) -> Answer
    requires { Accepts table.now policy.now × (links.old ≡ replicate 33026 0) }
    ensures { R.Leaves (ask_reduction table.now policy.now log.now (length scratch.old) (length buffer.old)) (length buffer.old) buffer.new result }
{
    links::check_and_link(table, log, links)?;
    let accepted = AcceptedLog {
        table,
        rows: log,
        links,
    };
    let reduced = walk_policy(&accepted, policy, scratch, buffer);
    settle(reduced, buffer)
}

// The residual of a policy at the front of a buffer, or the refusal. What stands behind it and in scratch is left open.
pub fn residual(
    table: &[i32],
    policy: &[i32],
    log: &[i32],
    scratch: &mut [i32],
    buffer: &mut [i32],
) -> Answer
    ensures { R.Leaves (ask_reduction table.now policy.now log.now (length scratch.old) (length buffer.old)) (length buffer.old) buffer.new result }
{
    check_policy(table, policy)?;
    let mut links = [0; links::LINKS];
    over_log(table, policy, log, &mut links, scratch, buffer)
}
