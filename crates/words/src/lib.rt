// Words: reads of and tests on the signed numbers of a slice. The checks go through these, and so never hold a signed
// number themselves. Past the end of a slice stands 0. The modules copy, move and clear words.
#![tactic(auto)]

pub mod clearing;
pub mod copying;
pub mod moving;

ghost use Rattle.std.specs.Prelude.{◌≡◌, pos, nat_abs, ◌+◌, ◌≤◌, ◌<◌, length, take, drop};
ghost use Rattle.std.specs.Int.Signed.{lt_z};
ghost use Rattle.model.specs.Words as W;
ghost use Rattle.words.specs.Offset as O;

// The magnitude of a word. A function of its own, so that no other holds a signed number.
fn magnitude(x: i32) -> usize
    ensures { result ≡ nat_abs x }
{
    x.unsigned_abs() as usize
}

// The magnitude of the word at an index, which is the word where it is not negative.
pub fn value(s: &[i32], i: usize) -> usize
    ensures { result ≡ W.value s.now i }
{
    if i < s.len() { magnitude(s[i]) } else { 0 }
}

// A word's distance from the least word.
fn from_least(x: i32) -> usize
    ensures { result ≡ O.from_least x }
{
    ((x as i64) + 2147483648) as usize
}

// The distance of the word at an index from the least word: words that differ have different ones, and no test is made.
pub fn offset(s: &[i32], i: usize) -> usize
    requires { i < length s.now }
    ensures { result ≡ O.from_least (W.word s.now i) }
{
    from_least(s[i])
}

// The word at an index is below 0.
pub fn negative(s: &[i32], i: usize) -> bool
    ensures { result ≡ lt_z (W.word s.now i) (pos 0) }
{
    if i < s.len() { s[i] < 0 } else { false }
}

// The word at an index of one slice is that at an index of another. A function of its own, as the tests below: `==` of signed numbers is
// one of their bits to a proof, and only here.
pub fn same(s: &[i32], i: usize, t: &[i32], j: usize) -> bool
    requires { (i < length s.now) × (j < length t.now) }
    ensures { result ≡ W.equal (W.word s.now i) (W.word t.now j) }
{
    s[i] == t[j]
}

// The word at an index is 0.
pub fn zero(s: &[i32], i: usize) -> bool
    requires { i < length s.now }
    ensures { result ≡ W.equal (W.word s.now i) (pos 0) }
{
    s[i] == 0
}

// The word at an index is at least low.
pub fn at_least(s: &[i32], i: usize, low: usize) -> bool
    ensures { result ≡ W.at_least low (W.word s.now i) }
{
    if negative(s, i) {
        return false;
    }
    low <= value(s, i)
}

// The word at an index is from low to high.
pub fn within(s: &[i32], i: usize, low: usize, high: usize) -> bool
    ensures { result ≡ W.within low high (W.word s.now i) }
{
    if !at_least(s, i, low) {
        return false;
    }
    value(s, i) <= high
}

// The word at an index is a number from 0 to n - 1.
pub fn below(s: &[i32], i: usize, n: usize) -> bool
    ensures { result ≡ W.below n (W.word s.now i) }
{
    if negative(s, i) {
        return false;
    }
    value(s, i) < n
}

// The word at an index is the number n.
pub fn is(s: &[i32], i: usize, n: usize) -> bool
    ensures { result ≡ W.equal (W.word s.now i) (pos n) }
{
    if negative(s, i) {
        return false;
    }
    value(s, i) == n
}

// Whether n words of one slice from an index on are those of another from an index on. By a loop: the library's test of two slices
// takes nearly twice as long for tuples whose first words are equal.
pub fn equal_words(a: &[i32], at: usize, b: &[i32], from: usize, n: usize) -> bool
    requires { (at + n ≤ length a.now) × (from + n ≤ length b.now) }
    ensures { result ≡ W.equal_all (take n (drop at a.now)) (take n (drop from b.now)) }
{
    for i in 0..n {
        if a[at + i] != b[from + i] {
            return false;
        }
    }
    true
}
