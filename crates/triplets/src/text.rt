// The reader of a group text, in pieces.
ghost use Rattle.std.specs.Prelude.{◌≤◌, ◌+◌};
ghost use Rattle.triplets.specs.PlaceBounds.{IsTextPlaceWithin};
ghost use Rattle.triplets.specs.Laws.PlaceLaws.{IsTextPlaceWithin-prop};

use crate::fault::{TextFault, TextKind};
use crate::line::LinePlace;
use crate::marks::mark_of;
use crate::notation::Notation;
use crate::place::TextPlace;
use motions::Listed;
use std::alloc::Global;

/// Reads a group text that comes in pieces, cut anywhere.
///
/// It reads byte by byte, and keeps what the lines so far list and where in a line it stands.
#[derive(Drop)]
pub struct LineReader {
    notation: Notation,
    listed: Listed,
    fed: u32,
    line: u32,
    column: u32,
    place: TextPlace,
    fault: Option<TextFault>,
    ghost few: { fed ≤ 65536 },
    ghost line_within: { line ≤ fed + 1 },
    ghost column_within: { column ≤ fed + 1 },
    ghost place_within: { IsTextPlaceWithin column place } by { IsTextPlaceWithin-prop column
        place },
}

impl LineReader {
    ghost use Rattle.std.specs.Prelude.{◌≡◌, ◌⊎◌, ◌++◌, [], ℕ, List, length, Err, Some, None, IfSome, IfOk, IfErr};
    ghost use Rattle.triplets.specs.declared.fault.TextFault.TheVariants.{At, NoMemory};
    ghost use Rattle.triplets.specs.TextReading.{Stands, Gives, AreAlike, kept, finished, byte_step, bytes_fed, fault_answered};
    ghost use Rattle.triplets.specs.TextAnswers.{IsAnswer, IsAnswerSoFar};
    ghost use Rattle.triplets.specs.KeptTexts.{Keeps};
    ghost use Rattle.triplets.specs.FlatTexts.{IsListedIn};
    ghost use Rattle.motions.specs.Views.{listing_of};
    ghost use Rattle.triplets.specs.declared.notation.Notation.{Notation};
    ghost use Rattle.triplets.specs.declared.notation.Notation.TheVariants.{Triplets, Pairs};
    ghost use Rattle.motions.specs.ListedSizes.{IsListedSmall};

    /// A reader of triplets that was fed nothing. It takes no memory.
    pub fn make(alloc: Global) -> Self
        ensures stands { Stands Triplets result [] }
        ensures told { Keeps Triplets result [] }
        ensures fed { bytes_fed result ≡ 0 }
        ensures fault { fault_answered result ≡ None }
    {
        LineReader::of(alloc, Notation::Triplets)
    }

    /// A reader of pairs that was fed nothing. Each pair becomes the triplet with the third part `z`, and each vector
    /// gets the third entry 0. It takes no memory.
    pub fn pairs(alloc: Global) -> Self
        ensures stands { Stands Pairs result [] }
        ensures told { Keeps Pairs result [] }
        ensures fed { bytes_fed result ≡ 0 }
        ensures fault { fault_answered result ≡ None }
    {
        LineReader::of(alloc, Notation::Pairs)
    }

    /// A reader of texts in the notation that was fed nothing. It takes no memory.
    pub fn of(alloc: Global, notation: Notation) -> Self
        ensures stands { Stands notation result [] }
        ensures told { Keeps notation result [] }
        ensures fed { bytes_fed result ≡ 0 }
        ensures fault { fault_answered result ≡ None }
    {
        LineReader {
            notation,
            listed: Listed {
                ops: Vec::new(alloc),
                centrings: Vec::new(alloc),
                generated: false,
            },
            fed: 0,
            line: 1,
            column: 1,
            place: TextPlace::Beginning,
            fault: None,
        }
    }

    fn here(&self, kind: TextKind) -> TextFault
        ensures { result ≡ At self.now.line self.now.column kind }
    {
        TextFault::At {
            line: self.line,
            column: self.column,
            kind,
        }
    }

    /// Ends the line, and lists its operation. Behind the heading the operations are generators.
    fn end_line(&mut self) -> Result<(), TextFault>
        ensures value { Gives (λ _. (kept self.new).said) result
            (finished self.old.notation (kept self.old)) }
        ensures same { AreAlike self.old self.new }
    {
        if self.place.is_heading() {
            self.listed.generated = true;
        }
        match self.place.ending(self.notation) {
            Some(Some(operation)) => {
                self.listed.ops.push(operation)?;
                Ok(())
            }
            Some(None) => Ok(()),
            None => Err(self.here(TextKind::MissingPart)),
        }
    }

    /// Reads one byte, which was counted.
    fn advance(&mut self, byte: u8) -> Result<(), TextFault>
        requires line { self.old.line ≤ self.old.fed }
        requires column { self.old.column ≤ self.old.fed }
        ensures kept { Gives (λ _. kept self.new) result
            (byte_step self.old.notation byte (kept self.old)) }
        ensures notation { self.new.notation ≡ self.old.notation }
        ensures fed { self.new.fed ≡ self.old.fed }
        ensures fault { self.new.fault ≡ self.old.fault }
        ensures line { self.new.line ≤ self.old.line + 1 }
        ensures column { self.new.column ≤ self.old.column + 1 }
    {
        if byte == b'\n' {
            self.end_line()?;
            self.line += 1;
            self.column = 1;
            self.place = TextPlace::Line(LinePlace::Start);
            return Ok(());
        }
        let meaning = mark_of(self.notation, byte);
        let next = match self.place.step(self.notation, byte, meaning) {
            Ok(next) => next,
            Err(kind) => return Err(self.here(kind)),
        };
        if let Some(vector) = self.place.completed(meaning) {
            self.listed.centrings.push(vector)?;
        }
        self.column += 1;
        self.place = next;
        Ok(())
    }

    /// Reads on.
    ///
    /// The fault comes as soon as the bytes so far show it: by the byte at its place, or by the line feed that ends
    /// its line too early. A fault that was answered is answered by each later call.
    pub fn feed(&mut self, piece: &[u8]) -> Result<(), TextFault>
        requires { bytes_fed self.old + length piece.now ≤ 65536 }
        ensures fed { bytes_fed self.new ≡ bytes_fed self.old + length piece.now }
        ensures stands { (result ≡ Err NoMemory) ⊎ ((notation : Notation) (text : List ℕ) →
            Stands notation self.old text → Stands notation self.new (text ++ piece.now)) }
        ensures answer { (notation : Notation) (text : List ℕ) → Stands notation self.old text →
            IsAnswerSoFar notation (text ++ piece.now) result }
        ensures told { (notation : Notation) (text : List ℕ) → Stands notation self.old text →
            IfOk result (λ _. Keeps notation self.new (text ++ piece.now)) }
        ensures again { IfSome (fault_answered self.old) (λ fault. result ≡ Err fault) }
        ensures kept { IfErr result (λ fault. fault_answered self.new ≡ Some fault) }
    {
        self.fed += piece.len() as u32;
        if let Some(fault) = self.fault {
            return Err(fault);
        }
        for byte in piece {
            if let Err(fault) = self.advance(*byte) {
                self.fault = Some(fault);
                return Err(fault);
            }
        }
        Ok(())
    }

    /// Ends the text: what it lists, or its first fault.
    pub fn finish(self) -> Result<Listed, TextFault>
        ensures answer { (notation : Notation) (text : List ℕ) → Stands notation self text →
            IsAnswer notation text result }
        ensures small { (notation : Notation) (text : List ℕ) → Stands notation self text →
            IfOk result (IsListedSmall 9) }
        ensures flat { (notation : Notation) (text : List ℕ) → Stands notation self text →
            IfOk result (λ listed. IsListedIn notation (listing_of listed)) }
        ensures again { IfSome (fault_answered self) (λ fault. result ≡ Err fault) }
    {
        if let Some(fault) = self.fault {
            return Err(fault);
        }
        let mut reader = self;
        reader.end_line()?;
        let LineReader { listed, .. } = reader;
        Ok(listed)
    }
}
