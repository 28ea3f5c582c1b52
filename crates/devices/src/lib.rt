// Devices: what a program reads its bytes from and writes them to.
//
// Promises to the crate above: the bytes that are given are those that were left, the bytes that are taken are held,
// and a call fails only where the device counted a fault. `read_all` and `put_all` say the same of a whole input and
// of a whole text. The real devices tell nothing of their bytes: they are the trusted edge.
#![tactic(auto)]

mod bytes_sink;
mod bytes_source;
mod faults;
mod put;
mod read;
mod real;
mod schedule;
#[cfg(test)]
mod tests;
mod traits;

pub use bytes_sink::{BytesSink, NoMemory};
pub use bytes_source::BytesSource;
pub use put::put_all;
pub use read::{Input, ReadFault, read_all};
pub use real::{RealSink, RealSource};
pub use traits::{Failed, Sink, Source};
