// Runs the cases of the auditor's calls that standard input lists, and prints a line for each: its name, number, place and count of
// the answer, and the words or bytes of the buffer; of reduce, on a second line, also those of scratch. Table T, log A, formula F
// and the cases P are those of the specification.
#![tactic(auto)]

mod call;
mod given;
mod show;

ghost use Rattle.std.specs.Prelude.{◌≡◌, ◌≤◌, length, take};
ghost use Rattle.std.specs.Io.KnownBytes.{Consumes};

use call::Call;
use given::{Given, List, split};
use model::Answer;
use show::{Spaced, Verdict};
use std::io::Read;

// Room for what a call takes, lent to each case: a list that was read stands there until another one is given.
#[derive(Drop)]
struct Room {
    table: [i32; 771],
    policy: [i32; 200],
    log: [i32; 32776],
    scratch: [i32; 60],
    text: [u8; 300],
    buffer: [i32; 60],
}

// Makes a call, which writes to the scratch, the text and the buffer that it is lent.
fn ask(
    call: Call,
    table: &[i32],
    policy: &[i32],
    log: &[i32],
    scratch: &mut [i32],
    text: &mut [u8],
    buffer: &mut [i32],
) -> Answer {
    match call {
        Call::CheckPolicy => auditor::check_policy(table, policy),
        Call::CheckLog => auditor::check_log(table, log),
        Call::Dual => auditor::dual(table, policy, buffer),
        Call::Reduce => auditor::reduce(table, policy, log, scratch, buffer),
        Call::ReadLog => auditor::read_log(table, text, buffer),
        Call::ReadPolicy => auditor::read_policy(table, text, buffer),
        Call::WriteLog => auditor::write_log(table, log, text),
        Call::WritePolicy => auditor::write_policy(table, policy, text),
    }
}

// Runs a case, and prints the answer and what the call left of what it may write to. What can't be printed is passed over.
fn case(
    rt: &impl Print,
    call: Call,
    name: &[u8],
    list: &[u8],
    given: &mut Given<'_>,
    room: &mut Room,
) {
    let Room {
        table,
        policy,
        log,
        scratch,
        text,
        buffer,
    } = room;
    let t = given::read_list(given.table, 1, table);
    let p = given::read_list(given.policy, 0, policy);
    let l = given::read_list(given.log, 0, log);
    given.table = List::Read(t);
    given.policy = List::Read(p);
    given.log = List::Read(l);
    let s = given::words(given.scratch, 5, scratch);
    let x = given::bytes(given.text, text);
    let b = given::words(list, -7, buffer);
    let scratch = &mut scratch[..s];
    let text = &mut text[..x];
    let buffer = &mut buffer[..b];
    let _ = Print::write_all(rt, name);
    let answer = Verdict(ask(
        call,
        &table[..t],
        &policy[..p],
        &log[..l],
        scratch,
        text,
        buffer,
    ));
    let _ = match call {
        Call::WriteLog | Call::WritePolicy => println!(rt; " {answer}{}", Spaced(text)),
        _ => println!(rt; " {answer}{}", Spaced(buffer)),
    };
    if call == Call::Reduce {
        let _ = Print::write_all(rt, name);
        let _ = println!(rt; " scratch{}", Spaced(scratch));
    }
}

// Reads the line that the input begins with: from where the cases below it are given something, or a case, which is run. Any other is
// passed over. A word or a name ends with the first byte that is no more than a blank.
fn line<'a>(rt: &impl Print, given: &mut Given<'a>, room: &mut Room, input: &'a [u8]) {
    let Some((first, rest)) = split(input, b' ') else {
        return;
    };
    let Ok(first) = str::from_utf8(first) else {
        return;
    };
    match first {
        "table" => given.table = List::Unread(rest),
        "policy" => given.policy = List::Unread(rest),
        "log" => given.log = List::Unread(rest),
        "scratch" => given.scratch = rest,
        "text" => given.text = rest,
        _ => {
            if let Ok(call) = Call::try_from(first) {
                let (name, list) = split(rest, b' ').unwrap_or((rest, b""));
                case(rt, call, name, list, given, room);
            }
        }
    }
}

// Reads each line of the input.
fn lines(rt: &impl Print, input: &[u8]) {
    let mut room = Room {
        table: [0; 771],
        policy: [0; 200],
        log: [0; 32776],
        scratch: [0; 60],
        text: [0; 300],
        buffer: [0; 60],
    };
    let mut given = Given::new(input);
    let mut rest = input;
    // By hand: a line is read together with all that follows it, since a list may go on over further lines.
    while !rest.is_empty() {
        line(rt, &mut given, &mut room, rest);
        let Some((_, below)) = split(rest, b'\n') else {
            return;
        };
        rest = below;
    }
}

// What can be read goes to the front of a slice: the next bytes of the reader, in their order. How many they are.
fn read<R: Read>(reader: &mut R, out: &mut [u8]) -> usize
    ensures front { (result ≤ length out.new) × (result ≡ length (take result out.new)) }
    ensures bytes { Consumes (R.remaining reader.old) (R.remaining reader.new) (take result out.new) }
{
    let mut n = 0;
    // By hand: the library's `read_exact` does not say how much it read before it failed.
    while n < out.len() {
        let Ok(more) = reader.read(&mut out[n..]) else {
            return n;
        };
        if more == 0 {
            return n;
        }
        n += more;
    }
    n
}

fn main(rt: HostRuntime) {
    let mut input = [0; 65536];
    let n = read(&mut rt.reader(), &mut input);
    lines(&rt, &input[..n]);
}
