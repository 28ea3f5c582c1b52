// The top call.
ghost use Rattle.std.specs.Prelude.{◌≡◌, ◌≢◌, ℕ, List, Some, Err, IfErr, IfOk, OnOk, map, string_bytes};
ghost use Rattle.std.specs.Io.KnownBytes.{IsAtEnd};
ghost use Rattle.devices.specs.Transfers.{ReadsWithin};
ghost use Rattle.symmetry.specs.Groups.{Listing};
ghost use Rattle.symmetry.specs.Vectors.{Vector};
ghost use Rattle.requests.specs.declared.outcome.Outcome.TheVariants as outcomes;
ghost use Rattle.requests.specs.declared.request.Format.{Format};
ghost use Rattle.requests.specs.declared.refusal.Refusal.{Refusal};
ghost use Rattle.requests.specs.Causes.{IsObstacle, IsReadWhole, IsRefusedOr};
ghost use Rattle.requests.specs.Inputs.{IsRefusedInput, IsShort, ListsGroup};
ghost use Rattle.requests.specs.Questions.{IsWordsRefusal};
ghost use Rattle.requests.specs.Runs.{Complains, HasCause, LeavesOut, OffersLine, OffersOut, ReadsWhole, Refuses};
ghost use Rattle.frame.specs.Words.{asked_by};
ghost use Rattle.frame.specs.Causes.{HasAnswer};
ghost use Rattle.frame.specs.Runs.{AsksRow, FitsIn, GivesFrame, IsCause, OfFrame, most_read};

use crate::reduced_line::reduced_line;
use crate::words::read_words;
use devices::{Sink, Source, put_all};
use requests::{Obstacle, Outcome, group_of, refuse};
use std::alloc::Global;

/// Runs the program: reads the words, and for an orientation the source to its end, and writes the line of the reduced
/// frame of the group to `out`, or the line of a refusal to `complaints`.
///
/// The words are those behind the program's name. The whole line is made before its first byte is written.
pub fn run<S: Source, K: Sink, E: Sink>(
    alloc: Global,
    words: &[String],
    source: &mut S,
    out: &mut K,
    complaints: &mut E,
) -> Outcome
    // A run that is done wrote the line of a reduced frame of the group that the input lists to `out`, and nothing else.
    // Where `out` failed, it has a front of that line more; any other run leaves it as it was.
    ensures out { LeavesOut K.held result
        (OfFrame (asked_by (map string_bytes words.now)) (S.left source.old)) out.old out.new }
    // Each call of `out` was offered all that was left of the line; a run that is done came to its end.
    ensures offers { OffersOut K.IsPut result
        (OfFrame (asked_by (map string_bytes words.now)) (S.left source.old)) out.old out.new }
    // A run that refuses wrote the line of its refusal to `complaints`, or a front of it where that sink failed, whose
    // count of faults then rose. Any other run leaves `complaints` as it was.
    ensures complaint { Complains E.held E.faults result complaints.old complaints.new }
    // Each call of `complaints` was offered all that was left of that line.
    ensures offers_line { OffersLine E.IsPut result complaints.old complaints.new }
    // What is refused is refused for the words, or for the input. A fault to read is of the source and one to write is
    // of `out`: its count of faults rose, and no other did.
    ensures cause { HasCause result
        (IsCause (asked_by (map string_bytes words.now)) (S.left source.old))
        (S.faults source.old) (S.faults source.new) (K.faults out.old) (K.faults out.new) }
    // Words that are no indices, or pass a limit, are refused for the first reason that applies, and for no other, unless
    // memory ran out for the line.
    ensures refuses_words { (refusal : Refusal) →
        IsWordsRefusal (asked_by (map string_bytes words.now)) refusal →
        IsRefusedOr refusal result }
    // An input that is too long, badly written or no group is refused for the first reason that applies, unless memory
    // ran out or the source failed.
    ensures refuses_input { (row : Vector) (format : Format) (input : List ℕ) (refusal : Refusal) →
        AsksRow (asked_by (map string_bytes words.now)) row format →
        S.left source.old ≡ Some input →
        IsRefusedInput format input refusal → Refuses refusal result }
    // A group has a reduced frame: the run is done, or refuses such a frame, which is out of range or skewed, unless
    // memory ran out or a device failed, whose count of faults then rose.
    ensures answers { (row : Vector) (format : Format) (input : List ℕ) (g : Listing) →
        AsksRow (asked_by (map string_bytes words.now)) row format →
        S.left source.old ≡ Some input → IsShort format input → ListsGroup format input g →
        GivesFrame g row result
        (S.faults source.old) (S.faults source.new) (K.faults out.old) (K.faults out.new) }
    // A source that never fails gives no fault to read.
    ensures steady_source { S.NeverFails source.old → result ≢ outcomes.ReadFault }
    // A sink `out` that never fails and has room for each such line gives no fault to write.
    ensures steady_out { (n : ℕ) → K.Takes out.old n →
        FitsIn (asked_by (map string_bytes words.now)) (S.left source.old) n →
        result ≢ outcomes.WriteFault }
    // Words that are refused leave the source as it is: no byte is read.
    ensures untouched { (refusal : Refusal) →
        IsWordsRefusal (asked_by (map string_bytes words.now)) refusal → source.new ≡ source.old }
    // An orientation has the source read to its end, unless the input is too long, the source failed or memory ran out:
    // nothing behind a bad line stays unread.
    ensures whole { (row : Vector) (format : Format) →
        AsksRow (asked_by (map string_bytes words.now)) row format → ReadsWhole result →
        IsAtEnd (S.left source.new) }
    // At most one byte more than an input may have is read.
    ensures within { ReadsWithin (S.left source.old) (S.left source.new)
        (most_read (asked_by (map string_bytes words.now))) }
{
    match answer(alloc, words, source) {
        Ok(line) => match put_all(out, &line) {
            Ok(()) => Outcome::Done,
            Err(_) => Outcome::WriteFault,
        },
        Err(Obstacle::Refused(refusal)) => refuse(alloc, refusal, complaints),
        Err(Obstacle::ReadFault) => Outcome::ReadFault,
        Err(Obstacle::NoMemory) => Outcome::NoMemory,
    }
}

/// Reads the source, where the words are an orientation, and makes the whole line.
fn answer<S: Source>(alloc: Global, words: &[String], source: &mut S) -> Result<Vec<u8>, Obstacle>
    ensures text { IfOk result (λ text.
        HasAnswer (asked_by (map string_bytes words.now)) (S.left source.old) text.items) }
    ensures obstacle { IfErr result (IsObstacle
        (IsCause (asked_by (map string_bytes words.now)) (S.left source.old))
        (S.faults source.old) (S.faults source.new)) }
    ensures unfailed { OnOk result (S.faults source.new ≡ S.faults source.old) }
    ensures steady { S.NeverFails source.old → result ≢ Err Obstacle.ReadFault }
    ensures refused { (refusal : Refusal) →
        IsWordsRefusal (asked_by (map string_bytes words.now)) refusal →
        (source.new ≡ source.old) × (result ≡ Err (Obstacle.Refused refusal)) }
    ensures whole { (row : Vector) (format : Format) →
        AsksRow (asked_by (map string_bytes words.now)) row format → IsReadWhole result →
        IsAtEnd (S.left source.new) }
    ensures within { ReadsWithin (S.left source.old) (S.left source.new)
        (most_read (asked_by (map string_bytes words.now))) }
{
    let (plane, format) = read_words(words)?;
    let group = group_of(alloc, source, format)?;
    reduced_line(alloc, &group, plane)
}
