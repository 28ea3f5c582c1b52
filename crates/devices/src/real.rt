// The real devices: the trusted edge. They tell nothing of their bytes.
ghost use Rattle.std.specs.Prelude.{◌≡◌, ◌<◌, ◌≤◌, length, take, None, ⊤, IfOk, OnErr, OnOk};
ghost use Rattle.std.specs.Io.{WritesAtMost};
ghost use Rattle.std.specs.Io.KnownBytes.{Appends, ReadConsumes};
ghost use Rattle.devices.specs.Calls.{IsCount, Rose};
ghost use Rattle.devices.specs.Real.{reader_of, source_faults, writer_of, sink_faults};

use crate::faults::Faults;
use crate::traits::{Failed, Sink, Source};
use std::io;
use std::io::{Read, Write};

/// A reader of std, as standard input.
#[derive(Drop)]
pub struct RealSource<R> {
    reader: R,
    faults: Faults,
}

impl<R> RealSource<R> {
    /// A source that gives what the reader gives.
    pub fn make(reader: R) -> RealSource<R>
        ensures reader { reader_of result ≡ reader }
        ensures faults { source_faults result ≡ 0 }
    {
        RealSource {
            reader,
            faults: Faults::none(),
        }
    }
}

impl<R: Read> Source for RealSource<R> {
    ghost left = { λ _. None };

    ghost faults = { source_faults };

    ghost NeverFails = { λ _. ⊥ };

    /// Each error of the reader is a fault.
    fn next(&mut self, buf: &mut [u8]) -> Result<usize, Failed>
        ensures fits { IfOk result (λ n. n ≤ length buf.new) }
        ensures bytes { ReadConsumes (R.remaining (reader_of self.old))
            (R.remaining (reader_of self.new)) result buf.new }
        ensures unfailed { OnOk result (source_faults self.new ≡ source_faults self.old) }
        ensures failed { OnErr result (Rose (source_faults self.old) (source_faults self.new)) }
        ensures most { IsCount (source_faults self.old) × IsCount (source_faults self.new) }
    {
        match self.reader.read(buf) {
            Ok(given) => Ok(given),
            Err(_) => Err(self.faults.count()),
        }
    }
}

/// A writer of std, as standard output.
#[derive(Drop)]
pub struct RealSink<W> {
    writer: W,
    faults: Faults,
}

impl<W> RealSink<W> {
    /// A sink that passes its bytes on to the writer.
    pub fn make(writer: W) -> RealSink<W>
        ensures writer { writer_of result ≡ writer }
        ensures faults { sink_faults result ≡ 0 }
    {
        RealSink {
            writer,
            faults: Faults::none(),
        }
    }
}

impl<W: Write> Sink for RealSink<W> {
    ghost held = { λ _. None };

    ghost faults = { sink_faults };

    ghost Takes = { λ _ _. ⊥ };

    ghost IsPut = { λ _ _ _ _. ⊤ };

    /// Each error of the writer is a fault, and so is a write that took nothing of a piece that is not empty.
    fn put(&mut self, piece: &[u8]) -> Result<usize, Failed>
        ensures fits { IfOk result (λ n. n ≤ length piece.now) }
        ensures some { IfOk result (λ n. 0 < length piece.now → 0 < n) }
        ensures bytes { IfOk result (λ n.
            Appends (W.contents (writer_of self.old)) (W.contents (writer_of self.new))
            (take n piece.now)) }
        ensures unfailed { OnOk result (sink_faults self.new ≡ sink_faults self.old) }
        ensures failed { OnErr result (Rose (sink_faults self.old) (sink_faults self.new)) }
        ensures most { IsCount (sink_faults self.old) × IsCount (sink_faults self.new) }
    {
        match write_through(&mut self.writer, piece) {
            Ok(taken) if taken > 0 || piece.is_empty() => Ok(taken),
            _ => Err(self.faults.count()),
        }
    }
}

// A writer that keeps bytes back would lose them, or hide its error, where the program ends: so each write is flushed.
fn write_through<W: Write>(writer: &mut W, piece: &[u8]) -> io::Result<usize>
    ensures fits { WritesAtMost result piece.now }
    ensures bytes { IfOk result
        (λ n. Appends (W.contents writer.old) (W.contents writer.new) (take n piece.now)) }
{
    let taken = writer.write(piece)?;
    writer.flush()?;
    Ok(taken)
}
