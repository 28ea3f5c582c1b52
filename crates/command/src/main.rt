// The program: words and a group text or a CIF file in, the answer or the line of one refusal out.
//
// Promises to its user: the contract of `run`, over the words, the standard streams and the status of the process.
#![tactic(auto)]

mod at;
#[cfg(test)]
mod device_tests;
mod images;
mod layers;
mod lines;
mod numbers;
mod read_words;
mod rod;
mod run;
mod samples;
mod slab;
mod survey;
#[cfg(test)]
mod tests;
mod types;

use devices::{RealSink, RealSource};
use requests::Outcome;
use std::alloc::AllocError;
use std::process::ExitCode;
use std::{env, io};

fn main(rt: HostRuntime) -> ExitCode {
    let words = match env::args(&rt) {
        Ok(args) => args.skip(1).collect(rt.alloc()),
        Err(error) if error.kind() == io::ErrorKind::OutOfMemory => Err(AllocError),
        // Words that are no text are no request.
        Err(_) => Ok(Vec::new(rt.alloc())),
    };
    let Ok(words) = words else {
        return ExitCode::from(Outcome::NoMemory.code());
    };
    // These devices tell nothing of their bytes: that standard input and output pass them on is trusted.
    let mut source = RealSource::make(rt.stdin());
    let mut out = RealSink::make(rt.stdout());
    let mut complaints = RealSink::make(rt.stderr());
    let outcome = run::run(rt.alloc(), &words, &mut source, &mut out, &mut complaints);
    ExitCode::from(outcome.code())
}
