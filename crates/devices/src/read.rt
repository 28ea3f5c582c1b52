// All the bytes of a source.
ghost use Rattle.std.specs.Prelude.{◌≡◌, ◌≢◌, ◌+◌, ◌<◌, ◌≤◌, length, Err, IfOk, IsErrOf, IfSome};
ghost use Rattle.std.specs.Io.KnownBytes.{IsAtEnd};
ghost use Rattle.devices.specs.Calls.{Rose};
ghost use Rattle.devices.specs.Input.{IfWhole, OnTooLong};
ghost use Rattle.devices.specs.Transfers.{ReadsWithin};
ghost use Rattle.devices.specs.declared.read.ReadFault.TheVariants.{Failed as failed, NoMemory as no_memory};

use crate::traits::{Failed, Source};
use std::alloc::{AllocError, Global};

// A call of `next` is asked for at most so many bytes.
const READ_PIECE: usize = 16_384;

/// What a source gave up to its end.
#[derive(Debug, PartialEq, Eq, Drop)]
pub enum Input {
    /// All its bytes.
    Whole(Vec<u8>),
    /// More bytes than the limit.
    TooLong,
}

/// Why a source was not read to its end.
#[derive(Clone, Copy, Debug, PartialEq, Eq)]
pub enum ReadFault {
    /// The source failed.
    Failed,
    /// There was no memory for the bytes.
    NoMemory,
}

impl From<Failed> for ReadFault {
    ghost from_gives = { λ _ fault. fault ≡ failed };

    fn from(_failed: Failed) -> ReadFault {
        ReadFault::Failed
    }
}

impl From<AllocError> for ReadFault {
    ghost from_gives = { λ _ fault. fault ≡ no_memory };

    fn from(_error: AllocError) -> ReadFault {
        ReadFault::NoMemory
    }
}

/// Reads a source to its end, but at most one byte beyond the limit. `TooLong` comes exactly where the source gave
/// more than `limit` bytes, and `Failed` only where its count of faults rose. Each turn takes a byte, or is the last.
/// Room for `limit` bytes is reserved at once; `NoMemory` comes where there is not so much.
pub fn read_all<S: Source>(alloc: Global, source: &mut S, limit: usize) -> Result<Input, ReadFault>
    ensures whole { IfOk result (λ input. IfWhole input (λ bytes.
        IfSome (S.left source.old) (λ all. bytes ≡ all))) }
    ensures end { IfOk result (λ input. IfWhole input (λ _. IsAtEnd (S.left source.new))) }
    ensures short { IfOk result (λ input. IfWhole input (λ bytes. length bytes ≤ limit)) }
    ensures too_long { IfOk result (λ input. OnTooLong input
        (IfSome (S.left source.old) (λ all. limit < length all))) }
    ensures within { ReadsWithin (S.left source.old) (S.left source.new) (limit + 1) }
    ensures unfailed { (result ≢ Err ReadFault.Failed) → S.faults source.new ≡ S.faults source.old }
    ensures failed { IsErrOf result ReadFault.Failed →
        Rose (S.faults source.old) (S.faults source.new) }
    ensures steady { S.NeverFails source.old → (result ≢ Err ReadFault.Failed)
        × S.NeverFails source.new }
{
    // Memory that is not written costs nothing, and bytes that are not moved are held once.
    let mut bytes = Vec::with_capacity(alloc, limit)?;
    let mut piece = [0; READ_PIECE];
    loop {
        let room = limit - bytes.len();
        let wanted = room.min(READ_PIECE - 1) + 1;
        let given = source.next(&mut piece[..wanted])?;
        if given == 0 {
            return Ok(Input::Whole(bytes));
        }
        if given > room {
            return Ok(Input::TooLong);
        }
        bytes.extend_from_slice(&piece[..given])?;
    }
}
