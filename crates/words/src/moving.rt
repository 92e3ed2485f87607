// Words of a buffer that make room for a header of two words, or take the room of one. Functions of their own: each leaves one `laid`, which the
// callers' proofs put together.
ghost use Rattle.std.specs.Prelude.{◌≡◌, ◌+◌, ◌≤◌, length, take, drop};
ghost use Rattle.words.specs.Laying.{laid};

// The n words behind two words at an index move left over these two.
pub fn left(out: &mut [i32], at: usize, n: usize)
    requires { at + 2 + n ≤ length out.old }
    ensures { out.new ≡ laid out.old at (take n (drop (at + 2) out.old)) }
{
    out.copy_within(at + 2..at + 2 + n, at);
}

// The first n words move right by two, the last one first.
pub fn right(out: &mut [i32], n: usize)
    requires { n + 2 ≤ length out.old }
    ensures { out.new ≡ laid out.old 2 (take n out.old) }
{
    out.copy_within(0..n, 2);
}
