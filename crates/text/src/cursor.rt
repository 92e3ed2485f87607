// A place in a text that is read front to back.
ghost use Rattle.std.specs.Prelude.{◌≡◌, ◌+◌, ◌≤◌, ◌<◌, ◌^◌, length, drop};

// Where a reading stands: the bytes that are left, and the index of the first of them in the whole text.
#[derive(Clone, Copy)]
pub struct Cursor<'a> {
    pub rest: &'a [u8],
    pub at: usize,
    pub ghost counted: { at + length rest.now < 2 ^ 64 },
}

impl<'a> Cursor<'a> {
    // At the first byte of a text.
    pub fn new(text: &'a [u8]) -> Cursor<'a>
        ensures rest { result.rest.now ≡ text.now }
        ensures at { result.at ≡ 0 }
    {
        Cursor { rest: text, at: 0 }
    }

    // So many bytes are passed.
    pub fn pass(&mut self, n: usize)
        requires { n ≤ length self.old.rest.now }
        ensures rest { self.new.rest.now ≡ drop n self.old.rest.now }
        ensures at { self.new.at ≡ self.old.at + n }
    {
        self.rest = &self.rest[n..];
        self.at += n;
    }
}
