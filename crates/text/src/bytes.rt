// Tests on the bytes of a text.
ghost use Rattle.std.specs.Prelude.{◌≡◌};
ghost use Rattle.model.specs.Bytes as B;
ghost use Rattle.model.specs.Csv as C;

pub const LF: u8 = 10;

pub const CR: u8 = 13;

pub const QUOTE: u8 = 34;

pub const COMMA: u8 = 44;

pub const MINUS: u8 = 45;

pub const NOUGHT: u8 = 48;

// The byte is a digit.
#[tactic(auto, unfolding(model::specs::Bytes::digit))]
pub fn digit(b: u8) -> bool
    ensures { result ≡ B.digit b }
{
    b.is_ascii_digit()
}

// The byte can stand in a bare field.
#[tactic(auto, unfolding(model::specs::Csv::text_data))]
pub fn text_data(b: u8) -> bool
    ensures { result ≡ C.text_data b }
{
    (32 <= b) & (b <= 126) & (b != QUOTE) & (b != COMMA)
}

// The byte can stand in a field in quotes.
#[tactic(auto, unfolding(model::specs::Csv::quotable))]
pub fn quotable(b: u8) -> bool
    ensures { result ≡ C.quotable b }
{
    text_data(b) | (b == COMMA) | (b == CR) | (b == LF) | (b == QUOTE)
}
