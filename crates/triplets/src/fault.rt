// What may be wrong with a text, and where.
ghost use Rattle.std.specs.Prelude.{◌≡◌};

use std::alloc::{AllocError, AllocFailed};

/// What is wrong at the place of a fault.
///
/// The place is the first byte with which the text so far is the beginning of no good text.
#[derive(Clone, Copy, Debug, PartialEq, Eq)]
pub enum TextKind {
    /// A byte that cannot stand here, and none of the other kinds.
    UnknownSign,
    /// A letter that stands in its part already.
    Repeated,
    /// A letter directly behind a number that is no digit from 1 to 9, or a fourth digit of a number.
    Coefficient,
    /// A digit with which the denominator is none that divides [`fractions::UNIT`].
    Denominator,
    /// The text, the line or the vector ends too early.
    MissingPart,
    /// A comma behind a third part.
    ExtraPart,
    /// A comma where its part has nothing yet.
    Empty,
}

/// What is wrong with a triplet.
#[derive(Clone, Copy, Debug, PartialEq, Eq)]
pub struct TripletFault {
    /// The place, in bytes from 1; behind the last byte where the triplet ends too early.
    pub place: usize,
    pub kind: TextKind,
}

/// Why a group text is not read.
#[derive(Clone, Copy, Debug, PartialEq, Eq)]
pub enum TextFault {
    /// The first bad line, counted from 1, and the column in bytes from 1.
    At {
        line: u32,
        column: u32,
        kind: TextKind,
    },
    NoMemory,
}

impl From<AllocError> for TextFault {
    ghost use Rattle.triplets.specs.declared.fault.TextFault.TheVariants.{NoMemory};

    ghost from_gives = { λ _ e. e ≡ NoMemory };

    fn from(_: AllocError) -> Self {
        TextFault::NoMemory
    }
}

impl<T: Drop> From<AllocFailed<T>> for TextFault {
    ghost use Rattle.triplets.specs.declared.fault.TextFault.TheVariants.{NoMemory};

    ghost from_gives = { λ _ e. e ≡ NoMemory };

    fn from(_: AllocFailed<T>) -> Self {
        TextFault::NoMemory
    }
}
