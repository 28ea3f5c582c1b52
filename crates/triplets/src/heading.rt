// The heading of a text of generators, byte by byte.
ghost use Rattle.std.specs.Prelude.{◌≡◌};
ghost use Rattle.triplets.specs.HeadingReading.{letter_step, behind_word, heading_step, is_whole};

use crate::fault::TextKind;
use crate::marks::{Mark, mark_of};
use crate::notation::Notation;

/// Where in the heading the reader stands: behind these letters of its word.
#[derive(Clone, Copy, Debug)]
pub enum HeadingPlace {
    G,
    Ge,
    Gen,
    Gene,
    Gener,
    Genera,
    Generat,
    Generato,
    Generator,
    /// The word is whole, and blanks may stand behind it.
    Generators,
    /// In a comment behind the word.
    Comment,
}

/// The word goes on with this letter alone. A comment would come too early.
fn letter_step(letter: u8, next: HeadingPlace, byte: u8) -> Result<HeadingPlace, TextKind>
    ensures { result ≡ letter_step letter next byte }
{
    if byte == letter {
        Ok(next)
    } else if byte == b'#' {
        Err(TextKind::MissingPart)
    } else {
        Err(TextKind::UnknownSign)
    }
}

fn behind_word(mark: Mark) -> Result<HeadingPlace, TextKind>
    ensures { result ≡ behind_word mark }
{
    match mark {
        Mark::Blank => Ok(HeadingPlace::Generators),
        Mark::Hash => Ok(HeadingPlace::Comment),
        _ => Err(TextKind::UnknownSign),
    }
}

impl HeadingPlace {
    /// Reads one more byte.
    pub fn step(self, notation: Notation, byte: u8) -> Result<HeadingPlace, TextKind>
        ensures { result ≡ heading_step notation byte self }
    {
        match self {
            HeadingPlace::G => letter_step(b'e', HeadingPlace::Ge, byte),
            HeadingPlace::Ge => letter_step(b'n', HeadingPlace::Gen, byte),
            HeadingPlace::Gen => letter_step(b'e', HeadingPlace::Gene, byte),
            HeadingPlace::Gene => letter_step(b'r', HeadingPlace::Gener, byte),
            HeadingPlace::Gener => letter_step(b'a', HeadingPlace::Genera, byte),
            HeadingPlace::Genera => letter_step(b't', HeadingPlace::Generat, byte),
            HeadingPlace::Generat => letter_step(b'o', HeadingPlace::Generato, byte),
            HeadingPlace::Generato => letter_step(b'r', HeadingPlace::Generator, byte),
            HeadingPlace::Generator => letter_step(b's', HeadingPlace::Generators, byte),
            HeadingPlace::Generators => behind_word(mark_of(notation, byte)),
            HeadingPlace::Comment => Ok(HeadingPlace::Comment),
        }
    }

    /// Whether the line may end here.
    pub fn is_whole(self) -> bool
        ensures { result ≡ is_whole self }
    {
        matches!(self, HeadingPlace::Generators | HeadingPlace::Comment)
    }
}
