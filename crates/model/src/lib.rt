// The answer of a call, and numbers of words that several crates name. What the cases of an answer mean as numbers is defined in
// specs/Answer.antt.
#![tactic(auto)]

ghost use Rattle.std.specs.Prelude.{◌≡◌};
ghost use Rattle.model.specs.Answer.{question, refusal_of};

// A row of a log has so many words, and so many of them stand before its arguments.
pub const ROW_WORDS: usize = 8;

pub const ARGUMENTS_FROM: usize = 2;

// A policy has at most so many words.
pub const POLICY_LIMIT: usize = 1048576;

// The questions of the specification in the order of their numbers, each named for what it asks about.
#[derive(Clone, Copy, PartialEq, Eq, Debug)]
pub enum Refusal {
    Table = 1,
    PolicyLength,
    Shape,
    Level,
    Predicate,
    Variable,
    Mode,
    LogLength,
    Row,
    Repeat,
    Scratch,
    Room,
    Csv,
    Record,
    Tptp,
}

// A refusal: the question that was answered with no, and the place.
#[derive(Clone, Copy, PartialEq, Eq, Debug)]
pub struct Refused(pub Refusal, pub usize);

// Accepted, with the call's count; or refused.
pub type Answer = Result<usize, Refused>;

// The number of the question that a refusal answers with no.
impl From<Refusal> for u32 {
    ghost from_gives = { λ refusal n. n ≡ question refusal };

    fn from(refusal: Refusal) -> u32 {
        refusal as u32
    }
}

// The refusal with a number: of a number that no question has, the last.
impl From<usize> for Refusal {
    ghost from_gives = { λ n refusal. refusal ≡ refusal_of n };

    #[tactic(auto, unfolding(crate::specs::Answer::refusal_of, crate::specs::Answer::in_order))]
    fn from(n: usize) -> Refusal {
        // By hand: no derive takes a number to its variant.
        match n {
            1 => Refusal::Table,
            2 => Refusal::PolicyLength,
            3 => Refusal::Shape,
            4 => Refusal::Level,
            5 => Refusal::Predicate,
            6 => Refusal::Variable,
            7 => Refusal::Mode,
            8 => Refusal::LogLength,
            9 => Refusal::Row,
            10 => Refusal::Repeat,
            11 => Refusal::Scratch,
            12 => Refusal::Room,
            13 => Refusal::Csv,
            14 => Refusal::Record,
            _ => Refusal::Tptp,
        }
    }
}
