// What the lines above a case give it, as it stands in the input.
ghost use Rattle.std.specs.Prelude.{◌≡◌, ◌+◌, ◌++◌, ◌≤◌, length, take, drop, IfSome, MatchOption};
ghost use Rattle.cases.specs.Given as G;

use text::cursor::Cursor;
use tptp_tokens::numbers::{integer, natural};

// What stands before a length.
const MARK: u8 = b':';

// A list that no call writes to: from where in the input it is given, or, once it is read, how many words it has.
#[derive(Clone, Copy)]
pub enum List<'a> {
    Unread(&'a [u8]),
    Read(usize),
}

// What a call takes: its lists, and from where in the input the others are given.
#[derive(Clone, Copy)]
pub struct Given<'a> {
    pub table: List<'a>,
    pub policy: List<'a>,
    pub log: List<'a>,
    pub scratch: &'a [u8],
    pub text: &'a [u8],
}

impl<'a> Given<'a> {
    // What no line has given yet is read from the front of the input.
    pub fn new(input: &'a [u8]) -> Given<'a>
        ensures table { G.IsFrom input.now result.table }
        ensures policy { G.IsFrom input.now result.policy }
        ensures log { G.IsFrom input.now result.log }
        ensures scratch { result.scratch.now ≡ input.now }
        ensures text { result.text.now ≡ input.now }
    {
        Given {
            table: List::Unread(input),
            policy: List::Unread(input),
            log: List::Unread(input),
            scratch: input,
            text: input,
        }
    }
}

// What stands before the first byte that is not above another one, and what stands behind it; none, if there is no such byte.
pub fn split(text: &[u8], last: u8) -> Option<(&[u8], &[u8])>
    ensures { MatchOption result (G.first last text.now ≡ length text.now) (λ parts. G.Parted text.now (G.first last text.now) parts.0.now parts.1.now) }
{
    for i in 0..text.len() {
        if text[i] <= last {
            return Some((&text[..i], &text[i + 1..]));
        }
    }
    None
}

// The length that the text begins with, if its mark stands there: 0, if it is no number, or there is no room for so much.
fn announced(text: &[u8], room: usize) -> Option<usize>
    ensures length { result ≡ G.announced room text.now }
    ensures most { IfSome result (λ n. n ≤ room) }
{
    let (&first, behind) = text.split_first()?;
    if first != MARK {
        return None;
    }
    let mut here = Cursor::new(behind);
    let Ok(n) = natural(&mut here) else {
        return Some(0);
    };
    if room < n {
        return Some(0);
    }
    Some(n)
}

// The numbers that the text begins with, over as many lines as they take, go to the front of a slice, as many as it has room for; or, if
// the text begins with a length, so many of the filler. How many words are given. Inlined, since a filler that is known there is stored
// by one call: slower by a fifth else, where there is nothing but long lists of zeros.
#[inline(always)]
pub fn words(text: &[u8], filler: i32, words: &mut [i32]) -> usize
    ensures count { result ≡ length (G.words_of text.now filler (length words.old)) }
    ensures words { words.new ≡ G.words_of text.now filler (length words.old) ++ drop result words.old }
    ensures front { (result ≤ length words.new) × (result ≡ length (take result words.new)) }
{
    if let Some(n) = announced(text, words.len()) {
        words[..n].fill(filler);
        return n;
    }
    let mut here = Cursor::new(text);
    for n in 0..words.len() {
        let Ok(number) = integer(&mut here) else {
            return n;
        };
        words[n] = number;
    }
    words.len()
}

// The words of a list stand at the front of a slice: they are read, if they were not read to there before. How many they are. Inlined
// as above.
#[inline(always)]
pub fn read_list(list: List<'_>, filler: i32, words: &mut [i32]) -> usize
    ensures read { G.Held list.entry filler words.old words.new result }
    ensures front { (result ≤ length words.new) × (result ≡ length (take result words.new)) }
{
    match list {
        List::Unread(text) => self::words(text, filler, words),
        List::Read(n) => n.min(words.len()),
    }
}

// What a byte means, behind a backslash or behind none.
fn meant(escaped: bool, b: u8) -> u8
    ensures { result ≡ G.meant escaped b }
{
    if !escaped {
        return b;
    }
    match b {
        b'r' => b'\r',
        b'n' => b'\n',
        b't' => b'\t',
        _ => b' ',
    }
}

// The first line of the text, where a backslash and the byte behind it are the byte that they mean, goes to the front of a slice, as far
// as that has room; or, if the text begins with a length, so many bytes 7. How many bytes are given.
pub fn bytes(text: &[u8], out: &mut [u8]) -> usize
    ensures count { result ≡ length (G.bytes_of text.now (length out.old)) }
    ensures bytes { out.new ≡ G.bytes_of text.now (length out.old) ++ drop result out.old }
    ensures front { (result ≤ length out.new) × (result ≡ length (take result out.new)) }
{
    if let Some(n) = announced(text, out.len()) {
        out[..n].fill(7);
        return n;
    }
    let mut n = 0;
    let mut escaped = false;
    for i in 0..text.len() {
        let b = text[i];
        if b == b'\n' {
            return n;
        }
        if out.len() <= n {
            return n;
        }
        if b == b'\\' {
            escaped = true;
            continue;
        }
        out[n] = meant(escaped, b);
        n += 1;
        escaped = false;
    }
    n
}
