// Numbers as words.
ghost use Rattle.std.specs.Prelude.{◌≡◌, ◌<◌, length, set};
ghost use Rattle.text.specs.Reading.{signed, Sized};

// The number of 32 bits with a magnitude and a sign.
pub fn signed(magnitude: usize, negative: bool) -> i32
    requires { Sized negative magnitude }
    ensures { result ≡ signed negative magnitude }
{
    if negative {
        (0 - magnitude as i64) as i32
    } else {
        magnitude as i32
    }
}

// It becomes a word of a row.
pub fn put(row: &mut [i32], k: usize, magnitude: usize, negative: bool)
    requires { (k < length row.old) × Sized negative magnitude }
    ensures { row.new ≡ set row.old k (signed negative magnitude) }
{
    row[k] = signed(magnitude, negative);
}
