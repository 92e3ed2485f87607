// The rest of what a call was lent becomes zero.
ghost use Rattle.std.specs.Prelude.{◌≡◌, ◌++◌, ◌-◌, ◌≤◌, length, take, replicate};

// What stands from an index on is written over with one value. A function of its own: each caller's proof cites the whole list that it leaves.
pub fn clear<T: Copy>(buffer: &mut [T], from: usize, blank: T)
    requires { from ≤ length buffer.old }
    ensures { buffer.new ≡ take from buffer.old ++ replicate (length buffer.old - from) blank }
{
    for element in &mut buffer[from..] {
        *element = blank;
    }
}
