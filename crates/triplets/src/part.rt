// The reader of one part of a triplet, byte by byte.
ghost use Rattle.std.specs.Prelude.{◌≡◌, ◌<◌};
ghost use Rattle.triplets.specs.Rows.{signed};

use crate::denominator::{PARTS, parts_over, with_digit};
use crate::fault::TextKind;
use crate::marks::{Axis, Mark};
use motions::Sign;

/// What a part says: a row of the matrix part, and an entry of the translation, in parts of a cell edge.
#[derive(Clone, Copy, Debug, PartialEq, Eq)]
pub struct Row {
    pub x: i64,
    pub y: i64,
    pub z: i64,
    pub translation: i64,
}

/// The letters that stand in a part.
#[derive(Clone, Copy, Debug, PartialEq, Eq)]
pub struct Used {
    pub x: bool,
    pub y: bool,
    pub z: bool,
}

/// Where in a part the reader stands.
#[derive(Clone, Copy, Debug, PartialEq, Eq)]
pub enum Spot {
    /// Nothing of the part but blanks.
    Begin,
    /// A sign, and blanks.
    Signed,
    /// Digits of a numerator.
    Digits { count: u32, value: u32 },
    /// The `/` behind a numerator.
    Divided { value: u32 },
    /// Digits that are a denominator.
    Below { value: u32, under: u32 },
    /// A whole term, and blanks or nothing.
    Behind,
}

/// What is known of the part that is being read.
#[derive(Clone, Copy, Debug, PartialEq, Eq)]
pub struct PartReader {
    pub row: Row,
    pub used: Used,
    pub sign: Sign,
    pub spot: Spot,
}

impl Used {
    ghost use Rattle.triplets.specs.Rows.{uses, with_used};

    fn has(self, axis: Axis) -> bool
        ensures { result ≡ uses axis self }
    {
        match axis {
            Axis::X => self.x,
            Axis::Y => self.y,
            Axis::Z => self.z,
        }
    }

    fn with(self, axis: Axis) -> Self
        ensures { result ≡ with_used axis self }
    {
        match axis {
            Axis::X => Used { x: true, ..self },
            Axis::Y => Used { y: true, ..self },
            Axis::Z => Used { z: true, ..self },
        }
    }
}

/// The number with this sign.
fn signed_number(sign: Sign, number: u32) -> i64
    ensures { result ≡ signed sign number }
{
    match sign {
        Sign::Plus => i64::from(number),
        Sign::Minus => -i64::from(number),
    }
}

impl Row {
    ghost use Rattle.triplets.specs.Rows.{with_entry, with_translation, IsRoomy};

    fn with_entry(self, axis: Axis, entry: i64) -> Self
        ensures { result ≡ with_entry axis entry self }
    {
        match axis {
            Axis::X => Row { x: entry, ..self },
            Axis::Y => Row { y: entry, ..self },
            Axis::Z => Row { z: entry, ..self },
        }
    }

    fn moved(self, sign: Sign, number: u32) -> Self
        requires { IsRoomy self }
        ensures { result ≡ with_translation sign number self }
    {
        Row {
            translation: self.translation + signed_number(sign, number),
            ..self
        }
    }
}

impl PartReader {
    ghost use Rattle.triplets.specs.Marks.{IsMarkInRange};
    ghost use Rattle.triplets.specs.PartReading.{
      with_number,
      with_letter,
      begin,
      settled,
      on_blank,
      on_sign,
      on_letter,
      on_digit,
      on_slash,
      part_step,
      IsSmall,
    };

    pub fn new() -> Self
        ensures { result ≡ begin }
    {
        PartReader {
            row: Row {
                x: 0,
                y: 0,
                z: 0,
                translation: 0,
            },
            used: Used {
                x: false,
                y: false,
                z: false,
            },
            sign: Sign::Plus,
            spot: Spot::Begin,
        }
    }

    fn number(self, parts: u32) -> Self
        requires { IsSmall self }
        ensures { result ≡ with_number parts self }
    {
        PartReader {
            row: self.row.moved(self.sign, parts),
            spot: Spot::Behind,
            ..self
        }
    }

    fn letter(self, axis: Axis, times: u32) -> Self
        ensures { result ≡ with_letter axis times self }
    {
        PartReader {
            row: self.row.with_entry(axis, signed_number(self.sign, times)),
            used: self.used.with(axis),
            spot: Spot::Behind,
            ..self
        }
    }

    /// The part with its last term whole, unless a term is still to come.
    pub fn settled(self) -> Option<Self>
        requires { IsSmall self }
        ensures { result ≡ settled self }
    {
        match self.spot {
            Spot::Begin | Spot::Signed | Spot::Divided { .. } => None,
            Spot::Digits { value, .. } => Some(self.number(PARTS * value)),
            Spot::Below { value, under } => Some(self.number(parts_over(under) * value)),
            Spot::Behind => Some(self),
        }
    }

    fn on_blank(self) -> Result<Self, TextKind>
        requires { IsSmall self }
        ensures { result ≡ on_blank self }
    {
        match self.spot {
            Spot::Begin | Spot::Signed => Ok(self),
            _ => self.settled().ok_or(TextKind::UnknownSign),
        }
    }

    fn on_sign(self, sign: Sign) -> Result<Self, TextKind>
        requires { IsSmall self }
        ensures { result ≡ on_sign sign self }
    {
        match self.spot {
            Spot::Begin => Ok(PartReader {
                sign,
                spot: Spot::Signed,
                ..self
            }),
            _ => match self.settled() {
                Some(whole) => Ok(PartReader {
                    sign,
                    spot: Spot::Signed,
                    ..whole
                }),
                None => Err(TextKind::UnknownSign),
            },
        }
    }

    fn on_letter(self, axis: Axis) -> Result<Self, TextKind>
        ensures { result ≡ on_letter axis self }
    {
        if self.used.has(axis) {
            return Err(TextKind::Repeated);
        }
        match self.spot {
            Spot::Begin | Spot::Signed => Ok(self.letter(axis, 1)),
            Spot::Digits { count: 1, value } if value > 0 => Ok(self.letter(axis, value)),
            Spot::Digits { .. } | Spot::Below { .. } => Err(TextKind::Coefficient),
            Spot::Divided { .. } | Spot::Behind => Err(TextKind::UnknownSign),
        }
    }

    fn on_digit(self, digit: u32) -> Result<Self, TextKind>
        requires small { IsSmall self }
        requires digit { digit < 10 }
        ensures { result ≡ on_digit digit self }
    {
        let spot = match self.spot {
            Spot::Begin | Spot::Signed => Spot::Digits {
                count: 1,
                value: digit,
            },
            Spot::Digits { count, value } => {
                if count >= 3 {
                    return Err(TextKind::Coefficient);
                }
                Spot::Digits {
                    count: count + 1,
                    value: 10 * value + digit,
                }
            }
            Spot::Divided { value } => match with_digit(0, digit) {
                Some(under) => Spot::Below { value, under },
                None => return Err(TextKind::Denominator),
            },
            Spot::Below { value, under } => match with_digit(under, digit) {
                Some(under) => Spot::Below { value, under },
                None => return Err(TextKind::Denominator),
            },
            Spot::Behind => return Err(TextKind::UnknownSign),
        };
        Ok(PartReader { spot, ..self })
    }

    fn on_slash(self) -> Result<Self, TextKind>
        ensures { result ≡ on_slash self }
    {
        match self.spot {
            Spot::Digits { value, .. } => Ok(PartReader {
                spot: Spot::Divided { value },
                ..self
            }),
            _ => Err(TextKind::UnknownSign),
        }
    }

    /// Reads on. A comma and `#` are no bytes of a part.
    pub fn step(self, mark: Mark) -> Result<Self, TextKind>
        requires small { IsSmall self }
        requires digit { IsMarkInRange mark }
        ensures { result ≡ part_step mark self }
    {
        match mark {
            Mark::Blank => self.on_blank(),
            Mark::Signs(sign) => self.on_sign(sign),
            Mark::Letter(axis) => self.on_letter(axis),
            Mark::Digit(digit) => self.on_digit(digit),
            Mark::Slash => self.on_slash(),
            Mark::Hash => Err(TextKind::MissingPart),
            Mark::Comma | Mark::Open | Mark::Close | Mark::Other => Err(TextKind::UnknownSign),
        }
    }
}
