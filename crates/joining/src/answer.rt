// The answer of a walk of a formula that is lent a part of the buffer. What it says is defined in specs/Answer.antt.

// The places ran out; the residual is plain; it is not plain and does not fit; it stands at the front, in so many words.
#[derive(Clone, Copy)]
pub enum Reduced {
    Short,
    Plain(bool),
    Long,
    Part(usize),
}
