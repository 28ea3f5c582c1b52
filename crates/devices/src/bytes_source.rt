// A source in memory.
ghost use Rattle.std.specs.Prelude.{◌≡◌, ◌<◌, ◌≤◌, ◌↔◌, [], ◌++◌, length, take, drop, Some, Contains, IfOk, IsErr, OnErr};
ghost use Rattle.devices.specs.Calls.{IsCount, next_count};
ghost use Rattle.devices.specs.Memory.{new_supply, least};

use crate::schedule::Schedule;
use crate::traits::{Failed, Source};
use std::marker::Model;

/// A source of bytes in memory, which fails at listed calls.
#[derive(Drop)]
pub struct BytesSource {
    bytes: Vec<u8>,
    place: usize,
    piece: usize,
    schedule: Schedule,
}

impl Model for BytesSource {
    ghost use Rattle.std.specs.Prelude.{◌≤◌, drop, length};
    ghost use Rattle.devices.specs.Memory.{Supply};

    ghost Value = { Supply };

    ghost view = { λ s. record {
      left = drop s.place s.bytes.items;
      piece = s.piece;
      failing = s.schedule.failing.items;
      calls = s.schedule.calls;
      faults = s.schedule.faults.count;
    } };

    ghost invariant = { λ s. (1 ≤ s.piece) × (s.place ≤ length s.bytes.items) };
}

impl BytesSource {
    /// A source that has these bytes left. Each call gives at most `piece` of them, and the calls whose numbers,
    /// counted from 1, are in `failing` fail.
    pub fn make(bytes: Vec<u8>, piece: usize, failing: Vec<u64>) -> BytesSource
        requires { 1 ≤ piece }
        ensures { result ≡ new_supply bytes.items piece failing.items }
    {
        BytesSource {
            bytes,
            place: 0,
            piece,
            schedule: Schedule::new(failing),
        }
    }
}

impl Source for BytesSource {
    ghost left = { λ s. Some s.left };

    ghost faults = { λ s. s.faults };

    ghost NeverFails = { λ s. s.failing ≡ [] };

    /// Fails exactly at the listed calls. Each other call gives as many bytes as the least of the buffer's length,
    /// the piece and the number of bytes left. The number of the call stays at 2^64 - 1.
    fn next(&mut self, buf: &mut [u8]) -> Result<usize, Failed>
        ensures listed { IsErr result ↔ Contains self.old.failing (next_count self.old.calls) }
        ensures amount { IfOk result
            (λ n. n ≡ least (length buf.old) self.old.piece (length self.old.left)) }
        ensures front { IfOk result (λ n. buf.new ≡ take n self.old.left ++ drop n buf.old) }
        ensures rest { IfOk result (λ n.
            self.new
            ≡ record self.old { left = drop n self.old.left; calls = next_count self.old.calls }) }
        ensures untouched { OnErr result (buf.new ≡ buf.old) }
        ensures fault { OnErr result
            (self.new ≡ record self.old {
              calls = next_count self.old.calls;
              faults = next_count self.old.faults;
            }) }
        ensures end { IfOk result (λ n. n ≡ 0 → 0 < length buf.new → self.new.left ≡ []) }
        ensures most { IsCount self.old.faults × IsCount self.new.faults }
    {
        self.schedule.begin()?;
        let left = &self.bytes.as_slice()[self.place..];
        let count = buf.len().min(self.piece.min(left.len()));
        buf[..count].copy_from_slice(&left[..count]);
        self.place += count;
        Ok(count)
    }
}
