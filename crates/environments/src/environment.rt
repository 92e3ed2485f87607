// Environments: sixteen numbers and a mark for each, by value, and their places of scratch.
ghost use Rattle.std.specs.Prelude.{◌≡◌, [], ◌+◌, ◌*◌, ◌≤◌, ◌<◌, length, take, drop};
ghost use Rattle.model.specs.Listing as M;
ghost use Rattle.environments.specs.Environment.{Holds, bits, unbits, place_of, place_at, stored};

// Sixteen marks as the bits of a number, the first as bit 0.
fn marks_word(marks: [bool; 16]) -> usize
    ensures { result ≡ bits marks }
{
    let mut word = 0;
    for i in (0..16).rev() {
        word = 2 * word + marks[i] as usize;
    }
    word
}

// Sixteen bits of a number as marks.
fn marks_of(word: usize) -> [bool; 16]
    ensures { result ≡ unbits 16 word }
{
    let mut marks = [false; 16];
    let mut left = word;
    for mark in &mut marks {
        *mark = left % 2 == 1;
        left /= 2;
    }
    marks
}

// Sixteen words from an index on. A function of its own: the proof of `read` cites the sixteen as one list.
fn numbers_at(words: &[i32], at: usize) -> [i32; 16]
    requires { at + 16 ≤ length words.now }
    ensures { result ≡ take 16 (drop at words.now) }
{
    let mut numbers = [0; 16];
    // By hand: as a `copy_from_slice` the sixteen go through memory, and a place is read four times as slowly.
    for i in 0..16 {
        numbers[i] = words[at + i];
    }
    numbers
}

// The numbers of the variables, 0 for a free one, and whether each is bound. Two arrays, since a place of scratch has sixteen numbers
// and one word of marks, and what is put in for variables is the numbers alone.
#[derive(Clone, Copy)]
pub struct Environment {
    pub numbers: [i32; 16],
    pub marks: [bool; 16],
}

impl Environment {
    // Variables in scope, and words of a place of scratch.
    pub const VARIABLES: usize = 16;

    pub const WORDS: usize = 17;

    // Every variable is free.
    pub fn empty() -> Environment
        ensures { Holds result (M.outer []) × Holds result (λ x. M.free) }
    {
        Environment {
            numbers: [0; 16],
            marks: [false; 16],
        }
    }

    // One variable more is bound. Of one form with `release`, which clears what this sets: a function for both would take the mark, and a number
    // where there is none. Its number is below 16 by a clause, here and below: it is a constant or an index that was just tested.
    pub fn bind(mut self, variable: usize, number: i32) -> Environment
        requires { variable < 16 }
        ensures { (e : M.Environment) → Holds self e → Holds result (M.bind e variable number) }
    {
        self.numbers[variable] = number;
        self.marks[variable] = true;
        self
    }

    // One variable is dropped.
    pub fn release(mut self, variable: usize) -> Environment
        requires { variable < 16 }
        ensures { (e : M.Environment) → Holds self e → Holds result (M.release e variable) }
    {
        self.numbers[variable] = 0;
        self.marks[variable] = false;
        self
    }

    // The environment of a place of scratch.
    pub fn read(scratch: &[i32], place: usize) -> Environment
        requires { 17 * place + 17 ≤ length scratch.now }
        ensures { (e : M.Environment) → place_at scratch.now place ≡ place_of e → Holds result e }
    {
        let at = Environment::WORDS * place;
        let numbers = numbers_at(scratch, at);
        let marks = marks_of(words::value(scratch, at + Environment::VARIABLES));
        Environment { numbers, marks }
    }

    // The environment is stored in a place of scratch.
    pub fn store(self, scratch: &mut [i32], place: usize)
        requires { 17 * place + 17 ≤ length scratch.old }
        ensures { (e : M.Environment) → Holds self e → scratch.new ≡ stored scratch.old place e }
    {
        let at = Environment::WORDS * place;
        // By hand: as a `copy_from_slice` the sixteen go through memory, and a place is stored four times as slowly.
        for i in 0..Environment::VARIABLES {
            scratch[at + i] = self.numbers[i];
        }
        scratch[at + Environment::VARIABLES] = marks_word(self.marks) as i32;
    }
}
