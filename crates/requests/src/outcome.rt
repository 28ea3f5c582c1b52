// How a run ends.
ghost use Rattle.std.specs.Prelude.{◌≡◌};
ghost use Rattle.requests.specs.Runs.{exit_status};

use crate::refusal::Refusal;

/// How a run of the program ended.
#[derive(Clone, Copy, PartialEq, Eq, Debug)]
pub enum Outcome {
    /// The whole output was written.
    Done,
    /// The words or the input were refused; nothing was written but the line of the refusal.
    Refused(Refusal),
    /// The source failed.
    ReadFault,
    /// The sink failed; it may hold the beginning of the output.
    WriteFault,
    /// Memory ran out before anything was written.
    NoMemory,
}

impl Outcome {
    /// The status that the program ends with: 0, 1, 3, 4 or 5.
    pub fn code(&self) -> u8
        ensures { result ≡ exit_status self.now }
    {
        match self {
            Outcome::Done => 0,
            Outcome::Refused(_) => 1,
            Outcome::ReadFault => 3,
            Outcome::WriteFault => 4,
            Outcome::NoMemory => 5,
        }
    }
}
