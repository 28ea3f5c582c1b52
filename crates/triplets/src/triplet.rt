// The reader of an operation, byte by byte: a triplet or a pair.
ghost use Rattle.std.specs.Prelude.{◌≡◌, ◌≤◌, ◌+◌, ℕ, length, IfOk, IfErr, IsOkAnd};
ghost use Rattle.motions.specs.Views.{motion_of};
ghost use Rattle.symmetry.specs.Motions.{Motion};
ghost use Rattle.triplets.specs.Grammar.{IsTriplet};
ghost use Rattle.triplets.specs.Rows.{motion3_with};
ghost use Rattle.triplets.specs.declared.notation.Notation.TheVariants.{Triplets};
ghost use Rattle.triplets.specs.Faults.{IsFault};
ghost use Rattle.motions.specs.ListedSizes.{IsSmallWithin};

use crate::fault::{TextKind, TripletFault};
use crate::marks::{Mark, mark_of};
use crate::notation::Notation;
use crate::part::{PartReader, Row, Spot};
use fractions::Part;
use motions::Motion3;

/// Which part is being read.
#[derive(Clone, Copy, Debug, PartialEq, Eq)]
pub enum Nth {
    First,
    Second,
    Third,
}

/// What is known of the operation that is being read.
#[derive(Clone, Copy, Debug)]
pub struct TripletReader {
    pub nth: Nth,
    pub first: Row,
    pub second: Row,
    pub part: PartReader,
}

impl Row {
    ghost use Rattle.std.specs.Prelude.{[], ◌∷◌};

    /// The third coordinate as it is.
    const THIRD_AXIS: Row = Row {
        x: 0,
        y: 0,
        z: 1,
        translation: 0,
    };

    fn entries(self) -> [i64; 3]
        ensures { result ≡ self.x ∷ self.y ∷ self.z ∷ [] }
    {
        [self.x, self.y, self.z]
    }
}

// The motion with these rows.
fn motion_with(first: Row, second: Row, third: Row) -> Motion3
    ensures { result ≡ motion3_with first second third }
{
    Motion3 {
        w: [first.entries(), second.entries(), third.entries()],
        t: [
            Part(first.translation),
            Part(second.translation),
            Part(third.translation),
        ],
    }
}

impl TripletReader {
    ghost use Rattle.triplets.specs.PartReading.{IsSmall};
    ghost use Rattle.triplets.specs.Marks.{IsMarkInRange};
    ghost use Rattle.triplets.specs.TripletReading.{start, on_comma, next_part, value, step};

    pub fn new() -> Self
        ensures { result ≡ start }
    {
        let nothing = Row {
            x: 0,
            y: 0,
            z: 0,
            translation: 0,
        };
        TripletReader {
            nth: Nth::First,
            first: nothing,
            second: nothing,
            part: PartReader::new(),
        }
    }

    fn next(self, notation: Notation, row: Row) -> Result<Self, TextKind>
        ensures { result ≡ next_part notation self.nth self row }
    {
        match (self.nth, notation) {
            (Nth::First, _) => Ok(TripletReader {
                nth: Nth::Second,
                first: row,
                part: PartReader::new(),
                ..self
            }),
            (Nth::Second, Notation::Triplets) => Ok(TripletReader {
                nth: Nth::Third,
                second: row,
                part: PartReader::new(),
                ..self
            }),
            _ => Err(TextKind::ExtraPart),
        }
    }

    fn on_comma(self, notation: Notation) -> Result<Self, TextKind>
        requires { IsSmall self.part }
        ensures { result ≡ on_comma notation self }
    {
        match self.part.settled() {
            Some(whole) => self.next(notation, whole.row),
            None if self.part.spot == Spot::Begin => Err(TextKind::Empty),
            None => Err(TextKind::UnknownSign),
        }
    }

    /// The operation, if it is whole. The third coordinate of a pair stays as it is.
    pub fn value(self, notation: Notation) -> Option<Motion3>
        requires { IsSmall self.part }
        ensures { result ≡ value notation self }
    {
        match (notation, self.nth, self.part.settled()) {
            (Notation::Triplets, Nth::Third, Some(whole)) => {
                Some(motion_with(self.first, self.second, whole.row))
            }
            (Notation::Pairs, Nth::Second, Some(whole)) => {
                Some(motion_with(self.first, whole.row, Row::THIRD_AXIS))
            }
            _ => None,
        }
    }

    /// Reads one more byte.
    pub fn step(self, notation: Notation, mark: Mark) -> Result<Self, TextKind>
        requires small { IsSmall self.part }
        requires digit { IsMarkInRange mark }
        ensures { result ≡ step notation mark self }
    {
        match mark {
            Mark::Comma => self.on_comma(notation),
            Mark::Hash if self.value(notation).is_some() => Err(TextKind::UnknownSign),
            Mark::Hash => Err(TextKind::MissingPart),
            _ => {
                let part = self.part.step(mark)?;
                Ok(TripletReader { part, ..self })
            }
        }
    }
}

/// Reads a coordinate triplet, such as `-x+y,-x,z+1/2`.
///
/// The fault has the place at which no triplet goes on, and what is wrong there; the place behind the last byte
/// where a triplet could go on.
pub fn read_triplet(bytes: &[u8]) -> Result<Motion3, TripletFault>
    requires { length bytes.now ≤ 16777216 }
    ensures found { IfOk result (λ m. IsTriplet bytes.now (motion_of m)) }
    ensures only { (value : Motion) → IsTriplet bytes.now value →
        IsOkAnd result (λ m. motion_of m ≡ value) }
    ensures small { IfOk result (λ m. IsSmallWithin 9 (motion_of m)) }
    ensures fault { IfErr result (λ fault. (before : ℕ) × (fault.place ≡ before + 1)
        × IsFault Triplets bytes.now before fault.kind) }
{
    let mut reader = TripletReader::new();
    for (i, byte) in bytes.iter().enumerate() {
        match reader.step(Notation::Triplets, mark_of(Notation::Triplets, *byte)) {
            Ok(next) => reader = next,
            Err(kind) => return Err(TripletFault { place: i + 1, kind }),
        }
    }
    match reader.value(Notation::Triplets) {
        Some(value) => Ok(value),
        None => Err(TripletFault {
            place: bytes.len() + 1,
            kind: TextKind::MissingPart,
        }),
    }
}
