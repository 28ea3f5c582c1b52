// A sink in memory.
ghost use Rattle.std.specs.Prelude.{◌≡◌, ◌+◌, ◌<◌, ◌≤◌, [], length, None, Some, IfOk, MatchResult};
ghost use Rattle.devices.specs.Calls.{IsCount};
ghost use Rattle.devices.specs.Memory.{IsStorePut, new_store};

use crate::schedule::Schedule;
use crate::traits::{Failed, Sink};
use std::alloc::{AllocError, Global};
use std::marker::Model;

/// There was no memory.
pub type NoMemory = AllocError;

/// A sink that holds its bytes in memory. It fails at listed calls, and where its room is full.
#[derive(Drop)]
pub struct BytesSink {
    bytes: Vec<u8>,
    room: usize,
    piece: usize,
    schedule: Schedule,
}

impl Model for BytesSink {
    ghost use Rattle.std.specs.Prelude.{◌≤◌, vec_len, vec_capacity};
    ghost use Rattle.devices.specs.Memory.{Store};

    ghost Value = { Store };

    ghost view = { λ s. record {
      held = s.bytes.items;
      room = s.room;
      piece = s.piece;
      failing = s.schedule.failing.items;
      calls = s.schedule.calls;
      faults = s.schedule.faults.count;
    } };

    ghost invariant = { λ s. (1 ≤ s.piece) × (vec_len s.bytes ≤ s.room)
        × (s.room ≤ vec_capacity s.bytes) };
}

impl BytesSink {
    /// An empty sink, with the memory for `room` bytes. Each call takes at most `piece` of them, and the calls whose
    /// numbers, counted from 1, are in `failing` fail. On `NoMemory` the list is gone.
    pub fn make(
        alloc: Global,
        room: usize,
        piece: usize,
        failing: Vec<u64>,
    ) -> Result<BytesSink, NoMemory>
        requires { 1 ≤ piece }
        ensures { IfOk result (λ sink. sink ≡ new_store room piece failing.items) }
    {
        let bytes = Vec::with_capacity(alloc, room)?;
        Ok(BytesSink {
            bytes,
            room,
            piece,
            schedule: Schedule::new(failing),
        })
    }

    /// The bytes that it holds.
    pub fn held(&self) -> &[u8]
        ensures { result.now ≡ self.now.held }
    {
        self.bytes.as_slice()
    }
}

impl Sink for BytesSink {
    ghost held = { λ s. Some s.held };

    ghost faults = { λ s. s.faults };

    ghost Takes = { λ s n. (s.failing ≡ []) × (length s.held + n ≤ s.room) };

    ghost IsPut = { IsStorePut };

    /// Fails exactly at the listed calls, and where the piece is not empty and the room is full. Each other call
    /// takes as many bytes as the least of the length of what is offered, the piece and the free room. The number of
    /// the call stays at 2^64 - 1.
    fn put(&mut self, piece: &[u8]) -> Result<usize, Failed>
        ensures put { MatchResult result (λ n. IsStorePut self.old piece.now (Some n) self.new)
            (λ _. IsStorePut self.old piece.now None self.new) }
        ensures some { IfOk result (λ n. 0 < length piece.now → 0 < n) }
        ensures most { IsCount self.old.faults × IsCount self.new.faults }
    {
        self.schedule.begin()?;
        let free = self.room - self.bytes.len();
        if free == 0 && !piece.is_empty() {
            return Err(self.schedule.fault());
        }
        let count = piece.len().min(self.piece.min(free));
        self.bytes.extend_from_slice(&piece[..count]).unwrap();
        Ok(count)
    }
}
