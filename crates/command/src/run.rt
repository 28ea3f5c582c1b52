// The top call.
ghost use Rattle.std.specs.Prelude.{◌≡◌, ◌≢◌, ℕ, List, map, string_bytes};
ghost use Rattle.std.specs.Io.KnownBytes.{IsAtEnd};
ghost use Rattle.devices.specs.Transfers.{ReadsWithin};
ghost use Rattle.requests.specs.declared.outcome.Outcome.TheVariants as outcomes;
ghost use Rattle.requests.specs.declared.refusal.Refusal.{Refusal};
ghost use Rattle.requests.specs.Answers.{HasOutput, IsInput, IsInputRefusal};
ghost use Rattle.requests.specs.Causes.{IsRefusedOr};
ghost use Rattle.requests.specs.Questions.{Asked, AsksInput, IsRequest, IsWordsRefusal};
ghost use Rattle.requests.specs.Runs.{Complains, FitsIn, HasCause, IsCause, LeavesOut, OfAnswer, OffersLine, OffersOut, ReadsWhole, Refuses, Succeeds, most_read};
ghost use Rattle.command.specs.Requests.{asked_by};

use crate::read_words::read_words;
use devices::{Sink, Source};
use requests::{Outcome, carry_out};
use std::alloc::Global;

/// Runs the program: reads the words, and for a request that asks for it the source to its end, and writes the whole
/// answer to `out`, or the line of a refusal to `complaints`.
///
/// The words are those behind the program's name. The whole output is made before its first byte is written.
pub fn run<S: Source, K: Sink, E: Sink>(
    alloc: Global,
    words: &[String],
    source: &mut S,
    out: &mut K,
    complaints: &mut E,
) -> Outcome
    // A run that is done wrote the answer to the request over the input to `out`, and nothing else. Where `out` failed,
    // it has a front of that answer more; any other run leaves it as it was.
    ensures out { LeavesOut K.held result
        (OfAnswer (asked_by (map string_bytes words.now)) (S.left source.old)) out.old out.new }
    // Each call of `out` was offered all that was left of the answer; a run that is done came to its end.
    ensures offers { OffersOut K.IsPut result
        (OfAnswer (asked_by (map string_bytes words.now)) (S.left source.old)) out.old out.new }
    // A run that refuses wrote the line of its refusal to `complaints`, or a front of it where that sink failed, whose
    // count of faults then rose. Any other run leaves `complaints` as it was.
    ensures complaint { Complains E.held E.faults result complaints.old complaints.new }
    // Each call of `complaints` was offered all that was left of that line.
    ensures offers_line { OffersLine E.IsPut result complaints.old complaints.new }
    // What is refused is refused for the words, or for the input of their request. A fault to read is of the source and
    // one to write is of `out`: its count of faults rose, and no other did.
    ensures cause { HasCause result
        (IsCause (asked_by (map string_bytes words.now)) (S.left source.old))
        (S.faults source.old) (S.faults source.new) (K.faults out.old) (K.faults out.new) }
    // Words that are no request, or pass a limit, are refused for the first reason that applies, and for no other, unless
    // memory ran out for the line.
    ensures refuses_words { (refusal : Refusal) →
        IsWordsRefusal (asked_by (map string_bytes words.now)) refusal →
        IsRefusedOr refusal result }
    // An input that is too long, badly written, no group, or a group of which this may not be asked, is refused for the
    // first reason that applies, unless memory ran out or the source failed.
    ensures refuses_input { (asked : Asked) (input : List ℕ) (refusal : Refusal) →
        IsRequest (asked_by (map string_bytes words.now)) asked →
        IsInput asked (S.left source.old) input →
        IsInputRefusal asked input refusal → Refuses refusal result }
    // A request over a group of which it may be asked is answered, and so is each table: the run is done, unless memory
    // ran out or a device failed, whose count of faults then rose.
    ensures answers { (asked : Asked) (input : List ℕ) →
        IsRequest (asked_by (map string_bytes words.now)) asked →
        IsInput asked (S.left source.old) input → HasOutput asked input → Succeeds result
        (S.faults source.old) (S.faults source.new) (K.faults out.old) (K.faults out.new) }
    // A source that never fails gives no fault to read.
    ensures steady_source { S.NeverFails source.old → result ≢ outcomes.ReadFault }
    // A sink `out` that never fails and has room for each answer gives no fault to write.
    ensures steady_out { (n : ℕ) → K.Takes out.old n →
        FitsIn (asked_by (map string_bytes words.now)) (S.left source.old) n →
        result ≢ outcomes.WriteFault }
    // Words that ask nothing of an input leave the source as it is: no byte is read, and none is missed.
    ensures untouched { ¬ AsksInput (asked_by (map string_bytes words.now)) →
        (source.new ≡ source.old) × (result ≢ outcomes.ReadFault) }
    // Words that ask about a group have the source read to its end, unless the input is too long, the source failed or
    // memory ran out: nothing behind a bad line stays unread.
    ensures whole { AsksInput (asked_by (map string_bytes words.now)) → ReadsWhole result →
        IsAtEnd (S.left source.new) }
    // At most one byte more than an input may have is read.
    ensures within { ReadsWithin (S.left source.old) (S.left source.new)
        (most_read (asked_by (map string_bytes words.now))) }
{
    carry_out(alloc, read_words(words), source, out, complaints)
}
