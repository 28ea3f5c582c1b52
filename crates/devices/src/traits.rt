// What bytes come from and go to.
ghost use Rattle.std.specs.Prelude.{◌≡◌, ℕ, ◌-◌, ◌<◌, ◌≤◌, Option, List, length, take, IfOk, IsOk, IsOkAnd, MatchResult, None, OnErr, OnOk, Some};
ghost use Rattle.std.specs.Io.KnownBytes.{prepend_known, append_known, IsAtEnd};
ghost use Rattle.devices.specs.Calls.{IsCount, Rose};

/// A device failed. It counted a fault.
#[derive(Debug, Clone, Copy, PartialEq, Eq)]
pub struct Failed;

/// What bytes are read from.
pub trait Source {
    // the bytes that are left, where the source tells; whether it tells never changes
    ghost left: { Self → Option (List ℕ) };

    // how often it failed, up to 2^64 - 1
    ghost faults: { Self → ℕ };

    // no call will ever fail
    ghost NeverFails: { Self → Type 0 };

    /// Reads some of the bytes that are left to the front of the buffer, and says how many. 0 into a buffer that is
    /// not empty is the end of the input. `Failed` comes only where the count of faults rose.
    fn next(&mut self, buf: &mut [u8]) -> Result<usize, Failed>
        ensures fits { IfOk result (λ n. n ≤ length buf.new) }
        ensures given { IfOk result
            (λ n. left self.old ≡ prepend_known (take n buf.new) (left self.new)) }
        ensures end { IfOk result (λ n. n ≡ 0 → 0 < length buf.new → IsAtEnd (left self.new)) }
        ensures kept { OnErr result (left self.new ≡ left self.old) }
        ensures unfailed { OnOk result (faults self.new ≡ faults self.old) }
        ensures failed { OnErr result (Rose (faults self.old) (faults self.new)) }
        ensures most { IsCount (faults self.old) × IsCount (faults self.new) }
        ensures steady { NeverFails self.old → IsOk result × NeverFails self.new };
}

/// What bytes are written to.
pub trait Sink {
    // the bytes that it holds, where the sink tells; whether it tells never changes
    ghost held: { Self → Option (List ℕ) };

    // how often it failed, up to 2^64 - 1
    ghost faults: { Self → ℕ };

    // it will take this many more bytes, in any pieces, and not fail
    ghost Takes: { Self → ℕ → Type 0 };

    // a call that is offered this piece takes so many bytes of it, or fails, and leaves this sink, where the sink tells
    ghost IsPut: { Self → List ℕ → Option ℕ → Self → Type 0 };

    /// Takes some bytes from the front of the piece, and says how many: at least one where the piece is not empty.
    /// `Failed` comes only where the count of faults rose.
    fn put(&mut self, piece: &[u8]) -> Result<usize, Failed>
        ensures fits { IfOk result (λ n. n ≤ length piece.now) }
        ensures some { IfOk result (λ n. 0 < length piece.now → 0 < n) }
        ensures taken { IfOk result
            (λ n. held self.new ≡ append_known (held self.old) (take n piece.now)) }
        ensures kept { OnErr result (held self.new ≡ held self.old) }
        ensures unfailed { OnOk result (faults self.new ≡ faults self.old) }
        ensures failed { OnErr result (Rose (faults self.old) (faults self.new)) }
        ensures most { IsCount (faults self.old) × IsCount (faults self.new) }
        ensures steady { (n : ℕ) → Takes self.old n → length piece.now ≤ n →
            IsOkAnd result (λ k. Takes self.new (n - k)) }
        ensures put { MatchResult result
            (λ n. IsPut self.old piece.now (Some n) self.new)
            (λ _. IsPut self.old piece.now None self.new) };
}
