// Words copied from one slice to another.
ghost use Rattle.std.specs.Prelude.{◌≡◌, ◌+◌, ◌≤◌, length, take, drop};
ghost use Rattle.words.specs.Laying.{laid};

// Words are copied as they are. A function of its own: its contract is one `laid`, which the callers' proofs put together.
pub fn copy_words(words: &[i32], from: usize, n: usize, out: &mut [i32], to: usize)
    requires { (from + n ≤ length words.now) × (to + n ≤ length out.old) }
    ensures { out.new ≡ laid out.old to (take n (drop from words.now)) }
{
    out[to..to + n].copy_from_slice(&words[from..from + n]);
}
