// The reader of a line, byte by byte.
ghost use Rattle.std.specs.Prelude.{◌≡◌, ◌≤◌, ℕ, length, IfOk, IfErr, Ok};

use crate::fault::TextKind;
use crate::marks::Mark;
use crate::notation::Notation;
use crate::part::{PartReader, Spot};
use crate::triplet::{Nth, TripletReader};
use fractions::Part;
use motions::{Motion3, Sign};

/// What is known of the centring vector that is being read.
#[derive(Clone, Copy, Debug)]
pub struct VectorReader {
    pub nth: Nth,
    pub first: i64,
    pub second: i64,
    pub part: PartReader,
    /// Whether it may be a label yet.
    pub label: bool,
}

/// Where in a line the reader stands.
#[derive(Clone, Copy, Debug)]
pub enum LinePlace {
    /// Nothing but blanks.
    Start,
    /// In an operation, or behind a label.
    Operation(TripletReader),
    /// Behind a bracket.
    Coordinates(VectorReader),
    /// A vector was closed, and its `+` comes.
    Closed([Part; 3]),
    /// Behind a vector.
    Behind,
    /// In a comment, behind the operation if there is one.
    Comment(Option<Motion3>),
}

impl VectorReader {
    ghost use Rattle.triplets.specs.PartReading.{IsSmall, settled};
    ghost use Rattle.triplets.specs.Marks.{IsMarkInRange};
    ghost use Rattle.triplets.specs.LineReading.{
      opened,
      next_coordinate,
      coordinate_comma,
      on_close,
      coordinate_sign,
      vector_step,
    };

    fn opened(label: bool) -> Self
        ensures { result ≡ opened label }
    {
        VectorReader {
            nth: Nth::First,
            first: 0,
            second: 0,
            part: PartReader::new(),
            label,
        }
    }

    fn next(self, notation: Notation, value: i64) -> Result<LinePlace, TextKind>
        ensures { result ≡ next_coordinate notation self.nth self value }
    {
        match (self.nth, notation) {
            (Nth::First, _) => Ok(LinePlace::Coordinates(VectorReader {
                nth: Nth::Second,
                first: value,
                part: PartReader::new(),
                label: false,
                ..self
            })),
            (Nth::Second, Notation::Triplets) => Ok(LinePlace::Coordinates(VectorReader {
                nth: Nth::Third,
                second: value,
                part: PartReader::new(),
                label: false,
                ..self
            })),
            _ => Err(TextKind::ExtraPart),
        }
    }

    fn on_comma(self, notation: Notation) -> Result<LinePlace, TextKind>
        requires { IsSmall self.part }
        ensures { result ≡ coordinate_comma notation (settled self.part) self }
    {
        match self.part.settled() {
            Some(whole) => self.next(notation, whole.row.translation),
            None if self.part.spot == Spot::Begin => Err(TextKind::Empty),
            None => Err(TextKind::UnknownSign),
        }
    }

    fn on_close(self, notation: Notation) -> Result<LinePlace, TextKind>
        requires { IsSmall self.part }
        ensures { result ≡ on_close notation self }
    {
        if self.label && matches!(self.part.spot, Spot::Digits { .. }) {
            return Ok(LinePlace::Operation(TripletReader::new()));
        }
        match (notation, self.nth, self.part.settled()) {
            (_, _, None) => Err(TextKind::UnknownSign),
            (Notation::Triplets, Nth::Third, Some(whole)) => {
                let vector = [
                    Part(self.first),
                    Part(self.second),
                    Part(whole.row.translation),
                ];
                Ok(LinePlace::Closed(vector))
            }
            (Notation::Pairs, Nth::Second, Some(whole)) => {
                let vector = [Part(self.first), Part(whole.row.translation), Part(0)];
                Ok(LinePlace::Closed(vector))
            }
            (_, _, Some(_)) => Err(TextKind::MissingPart),
        }
    }

    fn on_sign(self, sign: Sign) -> Result<LinePlace, TextKind>
        ensures { result ≡ coordinate_sign sign self.part.spot self }
    {
        match self.part.spot {
            Spot::Begin => {
                let part = PartReader {
                    sign,
                    spot: Spot::Signed,
                    ..self.part
                };
                Ok(LinePlace::Coordinates(VectorReader {
                    part,
                    label: false,
                    ..self
                }))
            }
            _ => Err(TextKind::UnknownSign),
        }
    }

    /// Reads one more byte.
    fn step(self, notation: Notation, mark: Mark) -> Result<LinePlace, TextKind>
        requires small { IsSmall self.part }
        requires digit { IsMarkInRange mark }
        ensures { result ≡ vector_step notation mark self }
    {
        match mark {
            Mark::Letter(_) => Err(match self.part.spot {
                Spot::Digits { .. } | Spot::Below { .. } => TextKind::Coefficient,
                _ => TextKind::UnknownSign,
            }),
            Mark::Signs(sign) => self.on_sign(sign),
            Mark::Comma => self.on_comma(notation),
            Mark::Close => self.on_close(notation),
            Mark::Digit(_) => {
                let part = self.part.step(mark)?;
                Ok(LinePlace::Coordinates(VectorReader { part, ..self }))
            }
            _ => {
                let part = self.part.step(mark)?;
                Ok(LinePlace::Coordinates(VectorReader {
                    part,
                    label: false,
                    ..self
                }))
            }
        }
    }
}

impl LinePlace {
    ghost use Rattle.triplets.specs.PartReading.{IsSmall};
    ghost use Rattle.triplets.specs.Marks.{IsMarkInRange};
    ghost use Rattle.triplets.specs.LineReading.{
      start_step,
      operation_step,
      closed_step,
      behind_step,
      place_step,
      completed,
      ending,
      IsPlaceSmall,
    };

    fn from_start(notation: Notation, mark: Mark) -> Result<LinePlace, TextKind>
        requires { IsMarkInRange mark }
        ensures { result ≡ start_step notation mark }
    {
        match mark {
            Mark::Blank => Ok(LinePlace::Start),
            Mark::Open => Ok(LinePlace::Coordinates(VectorReader::opened(true))),
            Mark::Hash => Ok(LinePlace::Comment(None)),
            _ => Ok(LinePlace::Operation(TripletReader::new().step(notation, mark)?)),
        }
    }

    fn from_operation(
        notation: Notation,
        reader: TripletReader,
        mark: Mark,
    ) -> Result<LinePlace, TextKind>
        requires small { IsSmall reader.part }
        requires digit { IsMarkInRange mark }
        ensures { result ≡ operation_step notation mark reader }
    {
        match mark {
            Mark::Hash => match reader.value(notation) {
                Some(value) => Ok(LinePlace::Comment(Some(value))),
                None => Err(TextKind::MissingPart),
            },
            _ => Ok(LinePlace::Operation(reader.step(notation, mark)?)),
        }
    }

    fn from_closed(vector: [Part; 3], mark: Mark) -> Result<LinePlace, TextKind>
        ensures { result ≡ closed_step mark vector }
    {
        match mark {
            Mark::Blank => Ok(LinePlace::Closed(vector)),
            Mark::Signs(Sign::Plus) => Ok(LinePlace::Behind),
            Mark::Hash => Err(TextKind::MissingPart),
            _ => Err(TextKind::UnknownSign),
        }
    }

    fn from_behind(mark: Mark) -> Result<LinePlace, TextKind>
        ensures { result ≡ behind_step mark }
    {
        match mark {
            Mark::Blank => Ok(LinePlace::Behind),
            Mark::Open => Ok(LinePlace::Coordinates(VectorReader::opened(false))),
            Mark::Hash => Ok(LinePlace::Comment(None)),
            _ => Err(TextKind::UnknownSign),
        }
    }

    /// Reads one more byte.
    pub fn step(self, notation: Notation, mark: Mark) -> Result<LinePlace, TextKind>
        requires small { IsPlaceSmall self }
        requires digit { IsMarkInRange mark }
        ensures { result ≡ place_step notation mark self }
    {
        match self {
            LinePlace::Start => LinePlace::from_start(notation, mark),
            LinePlace::Operation(reader) => LinePlace::from_operation(notation, reader, mark),
            LinePlace::Coordinates(reader) => reader.step(notation, mark),
            LinePlace::Closed(vector) => LinePlace::from_closed(vector, mark),
            LinePlace::Behind => LinePlace::from_behind(mark),
            LinePlace::Comment(operation) => Ok(LinePlace::Comment(operation)),
        }
    }

    /// The vector that the byte completes.
    pub fn completed(self, mark: Mark) -> Option<[Part; 3]>
        ensures { result ≡ completed mark self }
    {
        match (mark, self) {
            (Mark::Signs(Sign::Plus), LinePlace::Closed(vector)) => Some(vector),
            _ => None,
        }
    }

    /// The operation of the line, if the line may end here.
    pub fn ending(self, notation: Notation) -> Option<Option<Motion3>>
        requires { IsPlaceSmall self }
        ensures { result ≡ ending notation self }
    {
        match self {
            LinePlace::Start | LinePlace::Behind => Some(None),
            LinePlace::Operation(reader) => Some(Some(reader.value(notation)?)),
            LinePlace::Coordinates(_) | LinePlace::Closed(_) => None,
            LinePlace::Comment(operation) => Some(operation),
        }
    }
}
