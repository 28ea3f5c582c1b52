// What a byte means to the readers.
ghost use Rattle.std.specs.Prelude.{◌≡◌};
ghost use Rattle.triplets.specs.Marks.{mark};

use crate::notation::Notation;
use motions::Sign;

/// A letter of a triplet.
#[derive(Clone, Copy, Debug, PartialEq, Eq)]
pub enum Axis {
    X,
    Y,
    Z,
}

/// What a byte means.
#[derive(Clone, Copy, Debug, PartialEq, Eq)]
pub enum Mark {
    Blank,
    Signs(Sign),
    Letter(Axis),
    Digit(u32),
    Slash,
    Comma,
    Hash,
    Open,
    Close,
    Other,
}

/// What a byte means in the notation.
pub fn mark_of(notation: Notation, byte: u8) -> Mark
    ensures { result ≡ mark notation byte }
{
    match byte {
        b'0'..=b'9' => Mark::Digit(u32::from(byte - b'0')),
        b' ' | b'\t' | b'\r' => Mark::Blank,
        b'+' => Mark::Signs(Sign::Plus),
        b'-' => Mark::Signs(Sign::Minus),
        b'x' | b'X' => Mark::Letter(Axis::X),
        b'y' | b'Y' => Mark::Letter(Axis::Y),
        b'z' | b'Z' if notation == Notation::Triplets => Mark::Letter(Axis::Z),
        b'/' => Mark::Slash,
        b',' => Mark::Comma,
        b'#' => Mark::Hash,
        b'(' => Mark::Open,
        b')' => Mark::Close,
        _ => Mark::Other,
    }
}
