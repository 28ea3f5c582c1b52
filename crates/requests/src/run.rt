// A request carried out.
ghost use Rattle.std.specs.Prelude.{◌≡◌, ◌≢◌, ℕ, List, Err, IfErr, IfOk, OnOk};
ghost use Rattle.std.specs.Io.KnownBytes.{IsAtEnd};
ghost use Rattle.devices.specs.Transfers.{ReadsWithin};
ghost use Rattle.requests.specs.declared.refusal.Refusal.{Refusal};
ghost use Rattle.requests.specs.Questions.{Asked, AsksInput, IsAskedInRange, IsRequest, IsWordsRefusal, result_map};
ghost use Rattle.requests.specs.Views.{asked_of};
ghost use Rattle.requests.specs.Answers.{HasOutput, IsInput, IsInputRefusal};
ghost use Rattle.requests.specs.Causes.{HasAnswer, IsObstacle, IsReadWhole, IsRefusedOr};
ghost use Rattle.requests.specs.Runs.{Complains, FitsIn, HasCause, IsCause, LeavesOut, OfAnswer, OffersLine, OffersOut, ReadsWhole, Refuses, Succeeds, most_read};

use crate::input::group_of;
use crate::obstacle::Obstacle;
use crate::outcome::Outcome;
use crate::plane_lines::all_lines_text;
use crate::refusal::Refusal;
use crate::request::{Format, Request};
use crate::respond::respond;
use crate::tables::table_text;
use devices::{Sink, Source, put_all};
use std::alloc::Global;
use triplets::Notation;

/// Carries out a request: reads the source to its end, where it is asked of a group, and writes the whole answer to `out`,
/// or the line of a refusal to `complaints`.
///
/// `read` is what the words of a program were read as. The whole output is made before its first byte is written.
pub fn carry_out<S: Source, K: Sink, E: Sink>(
    alloc: Global,
    read: Result<Request, Refusal>,
    source: &mut S,
    out: &mut K,
    complaints: &mut E,
) -> Outcome
    requires range { IfOk read (λ request. IsAskedInRange (asked_of request)) }
    // A run that is done wrote the answer to the request over the input to `out`, and nothing else. Where `out` failed,
    // it has a front of that answer more; any other run leaves it as it was.
    ensures out { LeavesOut K.held result
        (OfAnswer (result_map asked_of read) (S.left source.old)) out.old out.new }
    // Each call of `out` was offered all that was left of the answer; a run that is done came to its end.
    ensures offers { OffersOut K.IsPut result
        (OfAnswer (result_map asked_of read) (S.left source.old)) out.old out.new }
    // A run that refuses wrote the line of its refusal to `complaints`, or a front of it where that sink failed, whose
    // count of faults then rose. Any other run leaves `complaints` as it was.
    ensures complaint { Complains E.held E.faults result complaints.old complaints.new }
    // Each call of `complaints` was offered all that was left of that line.
    ensures offers_line { OffersLine E.IsPut result complaints.old complaints.new }
    // What is refused is refused for the words, or for the input of their request. A fault to read is of the source and
    // one to write is of `out`: its count of faults rose, and no other did.
    ensures cause { HasCause result (IsCause (result_map asked_of read) (S.left source.old))
        (S.faults source.old) (S.faults source.new) (K.faults out.old) (K.faults out.new) }
    // Words that are no request, or pass a limit, are refused for the first reason that applies, and for no other, unless
    // memory ran out for the line.
    ensures refuses_words { (refusal : Refusal) →
        IsWordsRefusal (result_map asked_of read) refusal →
        IsRefusedOr refusal result }
    // An input that is too long, badly written, no group, or a group of which this may not be asked, is refused for the
    // first reason that applies, unless memory ran out or the source failed.
    ensures refuses_input { (asked : Asked) (input : List ℕ) (refusal : Refusal) →
        IsRequest (result_map asked_of read) asked →
        IsInput asked (S.left source.old) input →
        IsInputRefusal asked input refusal → Refuses refusal result }
    // A request over a group of which it may be asked is answered, and so is each table: the run is done, unless memory
    // ran out or a device failed, whose count of faults then rose.
    ensures answers { (asked : Asked) (input : List ℕ) →
        IsRequest (result_map asked_of read) asked →
        IsInput asked (S.left source.old) input → HasOutput asked input → Succeeds result
        (S.faults source.old) (S.faults source.new) (K.faults out.old) (K.faults out.new) }
    // A source that never fails gives no fault to read.
    ensures steady_source { S.NeverFails source.old → result ≢ Outcome.ReadFault }
    // A sink `out` that never fails and has room for each answer gives no fault to write.
    ensures steady_out { (n : ℕ) → K.Takes out.old n →
        FitsIn (result_map asked_of read) (S.left source.old) n →
        result ≢ Outcome.WriteFault }
    // Words that ask nothing of an input leave the source as it is: no byte is read, and none is missed.
    ensures untouched { ¬ AsksInput (result_map asked_of read) →
        (source.new ≡ source.old) × (result ≢ Outcome.ReadFault) }
    // Words that ask about a group have the source read to its end, unless the input is too long, the source failed or
    // memory ran out: nothing behind a bad line stays unread.
    ensures whole { AsksInput (result_map asked_of read) → ReadsWhole result →
        IsAtEnd (S.left source.new) }
    // At most one byte more than an input may have is read.
    ensures within { ReadsWithin (S.left source.old) (S.left source.new)
        (most_read (result_map asked_of read)) }
{
    match answer(alloc, read, source) {
        Ok(text) => match put_all(out, &text) {
            Ok(()) => Outcome::Done,
            Err(_) => Outcome::WriteFault,
        },
        Err(Obstacle::Refused(refusal)) => refuse(alloc, refusal, complaints),
        Err(Obstacle::ReadFault) => Outcome::ReadFault,
        Err(Obstacle::NoMemory) => Outcome::NoMemory,
    }
}

/// Reads the source where the request asks for it, and makes the whole answer.
fn answer<S: Source>(
    alloc: Global,
    read: Result<Request, Refusal>,
    source: &mut S,
) -> Result<Vec<u8>, Obstacle>
    requires range { IfOk read (λ request. IsAskedInRange (asked_of request)) }
    ensures text { IfOk result (λ text.
        HasAnswer (result_map asked_of read) (S.left source.old) text.items) }
    ensures obstacle { IfErr result (IsObstacle
        (IsCause (result_map asked_of read) (S.left source.old))
        (S.faults source.old) (S.faults source.new)) }
    ensures unfailed { OnOk result (S.faults source.new ≡ S.faults source.old) }
    ensures steady { S.NeverFails source.old → result ≢ Err Obstacle.ReadFault }
    ensures untouched { ¬ AsksInput (result_map asked_of read) →
        (source.new ≡ source.old) × (result ≢ Err Obstacle.ReadFault) }
    ensures whole { AsksInput (result_map asked_of read) → IsReadWhole result →
        IsAtEnd (S.left source.new) }
    ensures within { ReadsWithin (S.left source.old) (S.left source.new)
        (most_read (result_map asked_of read)) }
{
    match read? {
        Request::About { format, question } => {
            let group = group_of(alloc, source, format)?;
            respond(alloc, &question, &group)
        }
        Request::Lines { plane } => {
            let group = group_of(alloc, source, Format::GroupText(Notation::Pairs))?;
            all_lines_text(alloc, &group, plane)
        }
        Request::Tabulate(table) => Ok(table_text(alloc, table)?),
    }
}

/// Writes the line of a refusal to the complaints. It is refused whether that sink takes the line or not.
pub fn refuse<E: Sink>(alloc: Global, refusal: Refusal, complaints: &mut E) -> Outcome
    ensures refused { IsRefusedOr refusal result }
    ensures complaint { Complains E.held E.faults result complaints.old complaints.new }
    ensures offers_line { OffersLine E.IsPut result complaints.old complaints.new }
{
    match format!(in alloc; "{refusal}\n") {
        Ok(line) => {
            let _ = put_all(complaints, line.as_bytes());
            Outcome::Refused(refusal)
        }
        Err(_) => Outcome::NoMemory,
    }
}
