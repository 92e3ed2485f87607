// What is written of a text, one part behind another, into a buffer that may be too short.
ghost use Rattle.std.specs.Prelude.{◌≡◌, ◌+◌, ◌++◌, ◌≤◌, length, take};
ghost use Rattle.std.specs.Option.{ForSome};

use crate::writing;

// A buffer, and the index behind what was written; or None once there was too little room, and nothing is written any more.
#[derive(Drop)]
pub struct Writer<'a> {
    pub out: &'a mut [u8],
    pub put: Option<usize>,
    ghost fits: { ForSome put (λ at. at ≤ length out.now) },
}

// Bytes at an index of a text. By hand, and inlined at each call, since the texts there are short and of a known length: by a
// `copy_from_slice` an excluded tuple took half as long again, and the archive for C needed `memcpy`.
#[inline(always)]
fn put_bytes(out: &mut [u8], at: usize, bytes: &[u8])
    requires { at + length bytes.now ≤ length out.old }
    ensures { take (at + length bytes.now) out.new ≡ take at out.old ++ bytes.now }
{
    for i in 0..bytes.len() {
        out[at + i] = bytes[i];
    }
}

impl<'a> Writer<'a> {
    ghost use Rattle.std.specs.Prelude.{Some, cond};
    ghost use Rattle.model.specs.Words.{word};
    ghost use Rattle.model.specs.Decimal.{digits, decimal};
    ghost use Rattle.text.specs.Adds.{Adds, Begins};

    // At the front of a buffer.
    pub fn new(out: &'a mut [u8]) -> Writer<'a>
        ensures { Begins out.entry result }
    {
        Writer { out, put: Some(0) }
    }

    // Bytes as they are.
    #[inline(always)]
    pub fn bytes(&mut self, bytes: &[u8])
        ensures { Adds bytes.now self.old self.new }
    {
        let Some(at) = self.put else {
            return;
        };
        let next = at + bytes.len();
        if self.out.len() < next {
            self.put = None;
            return;
        }
        put_bytes(self.out, at, bytes);
        self.put = Some(next);
    }

    // One of two texts.
    #[inline(always)]
    pub fn either(&mut self, first: bool, yes: &[u8], no: &[u8])
        ensures { Adds (cond first yes.now no.now) self.old self.new }
    {
        if first {
            self.bytes(yes);
        } else {
            self.bytes(no);
        }
    }

    // A number that is not negative.
    pub fn natural(&mut self, n: usize)
        ensures { Adds (digits 10 n) self.old self.new }
    {
        let Some(at) = self.put else {
            return;
        };
        self.put = writing::put_natural(self.out, at, n);
    }

    // The word at an index of a slice.
    pub fn word(&mut self, words: &[i32], i: usize)
        ensures { Adds (decimal (word words.now i)) self.old self.new }
    {
        let Some(at) = self.put else {
            return;
        };
        self.put = writing::put_number(self.out, at, words, i);
    }
}
