// Where in a text the reader stands: line 1 may be the heading, and the others are lines of the grammar.
ghost use Rattle.std.specs.Prelude.{◌≡◌};
ghost use Rattle.triplets.specs.Marks.{mark};

use crate::fault::TextKind;
use crate::heading::HeadingPlace;
use crate::line::LinePlace;
use crate::marks::Mark;
use crate::notation::Notation;
use fractions::Part;
use motions::Motion3;

/// Where in a text the reader stands.
#[derive(Clone, Copy, Debug)]
pub enum TextPlace {
    /// In line 1, and nothing but blanks before.
    Beginning,
    /// In the heading.
    Heading(HeadingPlace),
    /// In any other line.
    Line(LinePlace),
}

impl TextPlace {
    ghost use Rattle.triplets.specs.HeadingReading.{
      from_beginning,
      text_step,
      text_completed,
      text_ending,
      is_heading,
      IsTextPlaceSmall,
    };

    fn from_beginning(notation: Notation, byte: u8, meaning: Mark) -> Result<TextPlace, TextKind>
        requires { meaning ≡ mark notation byte }
        ensures { result ≡ from_beginning notation byte }
    {
        if byte == b'g' {
            return Ok(TextPlace::Heading(HeadingPlace::G));
        }
        match meaning {
            Mark::Blank => Ok(TextPlace::Beginning),
            mark => Ok(TextPlace::Line(LinePlace::Start.step(notation, mark)?)),
        }
    }

    /// Reads one more byte of a line, with its meaning.
    pub fn step(self, notation: Notation, byte: u8, meaning: Mark) -> Result<TextPlace, TextKind>
        requires small { IsTextPlaceSmall self }
        requires meaning { meaning ≡ mark notation byte }
        ensures { result ≡ text_step notation byte self }
    {
        match self {
            TextPlace::Line(place) => Ok(TextPlace::Line(place.step(notation, meaning)?)),
            TextPlace::Beginning => TextPlace::from_beginning(notation, byte, meaning),
            TextPlace::Heading(place) => Ok(TextPlace::Heading(place.step(notation, byte)?)),
        }
    }

    /// The centring vector that a byte of this meaning completes.
    pub fn completed(self, meaning: Mark) -> Option<[Part; 3]>
        ensures { result ≡ text_completed meaning self }
    {
        match self {
            TextPlace::Line(place) => place.completed(meaning),
            _ => None,
        }
    }

    /// The operation of the line, if the line may end here.
    pub fn ending(self, notation: Notation) -> Option<Option<Motion3>>
        requires { IsTextPlaceSmall self }
        ensures { result ≡ text_ending notation self }
    {
        match self {
            TextPlace::Beginning => Some(None),
            TextPlace::Heading(place) if place.is_whole() => Some(None),
            TextPlace::Heading(_) => None,
            TextPlace::Line(place) => place.ending(notation),
        }
    }

    /// Whether this line is the heading.
    pub fn is_heading(self) -> bool
        ensures { result ≡ is_heading self }
    {
        matches!(self, TextPlace::Heading(_))
    }
}
