// Sets of variables. They go by value.
ghost use Rattle.std.specs.Prelude.{◌≡◌, length};

use policies::terms::Terms;
use tables::table;

// A set of variables, by a mark for each of the sixteen.
#[derive(Clone, Copy, PartialEq, Eq)]
pub struct Marks {
    pub marks: [bool; 16],
    pub ghost sixteen: { length marks ≡ 16 },
}

impl Marks {
    ghost use Rattle.std.specs.Prelude.{true, ◌&&◌, not, eqb, ltb, ℕ, ◌+◌, ◌^◌, ◌≤◌, ◌<◌};
    ghost use Rattle.model.specs.Lists.{all, span};
    ghost use Rattle.model.specs.Mode.{is_bound, inputs_bound};
    ghost use Rattle.model.specs.Reading.{term_at, in_scope};
    ghost use Rattle.policies.specs.Standing.{terms_at};
    ghost use Rattle.modes.specs.Mode.{set_of, with_terms};

    // No variable.
    pub const NONE: Marks = Marks { marks: [false; 16] };

    // The variables below the next free one.
    pub fn outer(scope: usize) -> Marks
        requires { scope ≤ 16 }
        ensures { (x : ℕ) → set_of result x ≡ ltb x scope }
    {
        let mut marks = [false; 16];
        for i in 0..scope {
            marks[i] = true;
        }
        Marks { marks }
    }

    // A variable is in the set.
    pub fn has(self, x: usize) -> bool
        requires { x < 16 }
        ensures { result ≡ set_of self x }
    {
        self.marks[x]
    }

    // The set without a variable.
    pub fn without(mut self, variable: usize) -> Marks
        requires { variable < 16 }
        ensures { (x : ℕ) → set_of result x ≡ (set_of self x && not (eqb x variable)) }
    {
        self.marks[variable] = false;
        self
    }

    // The v variables from the next free one on are in the set.
    pub fn introduced(self, scope: usize, v: usize) -> bool
        requires { scope + v ≤ 16 }
        ensures { result ≡ all (set_of self) (span scope v) }
    {
        (scope..scope + v).all(|x| self.has(x))
    }

    // The variables of two sets.
    pub fn both(self, other: Marks) -> Marks
        ensures { (x : ℕ) → set_of result x ≡ (set_of self x && set_of other x) }
    {
        let mut marks = self.marks;
        for i in 0..16 {
            if !other.marks[i] {
                marks[i] = false;
            }
        }
        Marks { marks }
    }

    // The term at an index is a constant, or a variable of the set.
    fn term_bound(self, words: &[i32], i: usize) -> bool
        requires { (i + 1 < 2 ^ 64) × (in_scope words.now 16 i ≡ true) }
        ensures { result ≡ is_bound (set_of self) (term_at words.now i) }
    {
        if words::is(words, i, 0) {
            return true;
        }
        self.has(words::value(words, i + 1))
    }

    // Each of the terms is a constant, or a variable of the set.
    pub(crate) fn all_bound(self, terms: Terms<'_>) -> bool
        ensures { result ≡ all (is_bound (set_of self)) (terms_at terms.entry.words.now terms.entry.first terms.entry.n) }
    {
        (0..terms.n).all(|i| self.term_bound(terms.words, terms.first + 2 * i))
    }

    // Of the terms of an atom, those at input positions are bound.
    pub(crate) fn inputs_bound(self, table: &[i32], p: usize, terms: Terms<'_>) -> bool
        ensures { result ≡ inputs_bound table.now p (set_of self) 0 (terms_at terms.entry.words.now terms.entry.first terms.entry.n) }
    {
        (0..terms.n).all(|i| {
            !table::input(table, p, i) || self.term_bound(terms.words, terms.first + 2 * i)
        })
    }

    // The set with the variables among the terms.
    pub(crate) fn with_terms(self, terms: Terms<'_>) -> Marks
        ensures { set_of result ≡ with_terms (set_of self) (terms_at terms.entry.words.now terms.entry.first terms.entry.n) }
    {
        let mut marks = self.marks;
        for i in 0..terms.n {
            if !words::is(terms.words, terms.first + 2 * i, 0) {
                let x = words::value(terms.words, terms.first + 2 * i + 1);
                marks[x] = true;
            }
        }
        Marks { marks }
    }
}
