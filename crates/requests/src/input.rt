// The group that a source gives.
ghost use Rattle.std.specs.Prelude.{◌≡◌, ◌≢◌, ◌+◌, ℕ, List, Err, IfErr, IfOk, OnOk, Some};
ghost use Rattle.std.specs.Io.KnownBytes.{IsAtEnd};
ghost use Rattle.devices.specs.Transfers.{ReadsWithin};
ghost use Rattle.motions.specs.ListedSizes.{IsListedSmall};
ghost use Rattle.motions.specs.Views.{listing_of};
ghost use Rattle.triplets.specs.FlatTexts.{IsListedIn};
ghost use Rattle.triplets.specs.Texts.{IsGroupText};
ghost use Rattle.requests.specs.declared.request.Format.TheVariants.{GroupText};
ghost use Rattle.requests.specs.Causes.{IsReadWhole, IsSourceObstacle};
ghost use Rattle.requests.specs.Inputs.{IsGroupIn, IsGroupOfInput, IsShort, most_bytes};

use crate::cif_input::group_of_file;
use crate::obstacle::Obstacle;
use crate::refusal::Refusal;
use crate::request::Format;
use closure::Group;
use devices::Source;
use motions::Listed;
use std::alloc::Global;
use triplets::{LineReader, MOST_BYTES, Notation};

// A text is read in pieces of at most so many bytes.
const TEXT_PIECE: usize = 4096;

/// Reads a source to its end: the group that it lists in this format.
pub fn group_of<S: Source>(alloc: Global, source: &mut S, format: Format) -> Result<Group, Obstacle>
    // It is the group of each listing that the input has, within the limits.
    ensures group { IfOk result (λ group. (input : List ℕ) →
        S.left source.old ≡ Some input → IsGroupOfInput format input group) }
    // That of a text of pairs is a plane group.
    ensures flat { IfOk result (IsGroupIn format) }
    // An input that is refused is too long, badly written or no group: the first that applies. A fault to read is of
    // the source, whose count of faults rose.
    ensures obstacle { IfErr result
        (IsSourceObstacle format (S.left source.old) (S.faults source.old) (S.faults source.new)) }
    // A source that gave a group did not fail.
    ensures unfailed { OnOk result (S.faults source.new ≡ S.faults source.old) }
    // A source that never fails gives no fault to read.
    ensures steady { S.NeverFails source.old → result ≢ Err Obstacle.ReadFault }
    // The source is read to its end, unless the input is too long, the source failed or memory ran out.
    ensures whole { IsReadWhole result → IsAtEnd (S.left source.new) }
    // At most one byte more than an input of this format may have is read.
    ensures within { ReadsWithin (S.left source.old) (S.left source.new) (most_bytes format + 1) }
{
    match format {
        Format::GroupText(notation) => group_of_text(alloc, source, notation),
        Format::Cif => group_of_file(alloc, source),
    }
}

/// Reads a source to its end: the group that its text lists.
fn group_of_text<S: Source>(
    alloc: Global,
    source: &mut S,
    notation: Notation,
) -> Result<Group, Obstacle>
    ensures group { IfOk result (λ group. (input : List ℕ) →
        S.left source.old ≡ Some input → IsGroupOfInput (GroupText notation) input group) }
    ensures flat { IfOk result (IsGroupIn (GroupText notation)) }
    ensures obstacle { IfErr result
        (IsSourceObstacle (GroupText notation) (S.left source.old) (S.faults source.old)
        (S.faults source.new)) }
    ensures unfailed { OnOk result (S.faults source.new ≡ S.faults source.old) }
    ensures steady { S.NeverFails source.old → result ≢ Err Obstacle.ReadFault }
    ensures whole { IsReadWhole result → IsAtEnd (S.left source.new) }
    ensures within { ReadsWithin (S.left source.old) (S.left source.new) 65537 }
{
    let listed = read_listed(alloc, source, notation)?;
    if listed.generated {
        Ok(Group::generated(alloc, listed)?)
    } else {
        Ok(Group::make(alloc, listed)?)
    }
}

/// Reads a source to its end, piece by piece: what its text lists.
fn read_listed<S: Source>(
    alloc: Global,
    source: &mut S,
    notation: Notation,
) -> Result<Listed, Obstacle>
    ensures text { IfOk result (λ listed. (input : List ℕ) →
        S.left source.old ≡ Some input →
        IsShort (GroupText notation) input
        × IsGroupText notation input listed.generated (listing_of listed)) }
    ensures small { IfOk result (IsListedSmall 9) }
    ensures flat { IfOk result (λ listed. IsListedIn notation (listing_of listed)) }
    ensures obstacle { IfErr result
        (IsSourceObstacle (GroupText notation) (S.left source.old) (S.faults source.old)
        (S.faults source.new)) }
    ensures unfailed { OnOk result (S.faults source.new ≡ S.faults source.old) }
    ensures steady { S.NeverFails source.old → result ≢ Err Obstacle.ReadFault }
    ensures whole { IsReadWhole result → IsAtEnd (S.left source.new) }
    ensures within { ReadsWithin (S.left source.old) (S.left source.new) 65537 }
{
    let mut reader = LineReader::of(alloc, notation);
    let mut room = MOST_BYTES;
    let mut piece = [0; TEXT_PIECE];
    loop {
        let wanted = room.min(TEXT_PIECE - 1) + 1;
        let given = source.next(&mut piece[..wanted])?;
        if given == 0 {
            return Ok(reader.finish()?);
        }
        if given > room {
            return Err(Obstacle::Refused(Refusal::TooLong));
        }
        // A fault of the text is answered again by `finish`: a source that fails or gives too much comes first.
        let _ = reader.feed(&piece[..given]);
        room -= given;
    }
}
