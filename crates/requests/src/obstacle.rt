// What keeps the program from an answer.
ghost use Rattle.std.specs.Prelude.{◌≡◌};
ghost use Rattle.requests.specs.declared.obstacle.Obstacle.TheVariants.{NoMemory, ReadFault, Refused};
ghost use Rattle.requests.specs.declared.refusal.Refusal.TheVariants.{Cif};
ghost use Rattle.requests.specs.Obstacles.{obstacle_of_cif, obstacle_of_generators, obstacle_of_group, obstacle_of_height, obstacle_of_orbits, obstacle_of_read, obstacle_of_text, refusal_of_fault, refusal_of_frame};

use crate::cif_kind::CifKind;
use crate::refusal::Refusal;
use cif_symops::CifFault;
use closure::{GeneratedError, GroupError};
use devices::{Failed, ReadFault};
use motions::FrameFault;
use orbits::OrbitFault;
use quotient::GroupFault;
use scanning::AtFault;
use std::alloc::AllocError;
use triplets::TextFault;

/// What keeps the program from an answer.
#[derive(Clone, Copy, PartialEq, Eq, Debug)]
pub enum Obstacle {
    /// The words or the input are refused.
    Refused(Refusal),
    /// The source failed.
    ReadFault,
    /// Memory ran out.
    NoMemory,
}

impl From<Refusal> for Obstacle {
    ghost from_gives = { λ refusal obstacle. obstacle ≡ Refused refusal };

    fn from(refusal: Refusal) -> Obstacle {
        Obstacle::Refused(refusal)
    }
}

impl From<Failed> for Obstacle {
    ghost from_gives = { λ _ obstacle. obstacle ≡ ReadFault };

    fn from(_failed: Failed) -> Obstacle {
        Obstacle::ReadFault
    }
}

impl From<AllocError> for Obstacle {
    ghost from_gives = { λ _ obstacle. obstacle ≡ NoMemory };

    fn from(_error: AllocError) -> Obstacle {
        Obstacle::NoMemory
    }
}

impl From<TextFault> for Obstacle {
    ghost from_gives = { λ fault obstacle. obstacle ≡ obstacle_of_text fault };

    fn from(fault: TextFault) -> Obstacle {
        match fault {
            TextFault::At { line, column, kind } => Obstacle::Refused(Refusal::Text {
                line,
                column,
                kind,
            }),
            TextFault::NoMemory => Obstacle::NoMemory,
        }
    }
}

// A fault at a place of a CIF file.
fn at_place(line: u32, column: u32, kind: CifKind) -> Obstacle
    ensures { result ≡ Refused (Cif line column kind) }
{
    Obstacle::Refused(Refusal::Cif { line, column, kind })
}

impl From<CifFault> for Obstacle {
    ghost from_gives = { λ fault obstacle. obstacle ≡ obstacle_of_cif fault };

    fn from(fault: CifFault) -> Obstacle {
        match fault {
            CifFault::Quote { line, column } => at_place(line, column, CifKind::Quote),
            CifFault::TextField { line, column } => at_place(line, column, CifKind::TextField),
            CifFault::NoSymops => Obstacle::Refused(Refusal::NoSymops),
            CifFault::Ragged { line, column } => at_place(line, column, CifKind::Ragged),
            CifFault::Symop { line, column, kind } => at_place(line, column, CifKind::Symop(kind)),
            CifFault::NoMemory => Obstacle::NoMemory,
        }
    }
}

impl From<ReadFault> for Obstacle {
    ghost from_gives = { λ fault obstacle. obstacle ≡ obstacle_of_read fault };

    fn from(fault: ReadFault) -> Obstacle {
        match fault {
            ReadFault::Failed => Obstacle::ReadFault,
            ReadFault::NoMemory => Obstacle::NoMemory,
        }
    }
}

impl From<GroupError> for Obstacle {
    ghost from_gives = { λ error obstacle. obstacle ≡ obstacle_of_group error };

    fn from(error: GroupError) -> Obstacle {
        match error {
            GroupError::TooMany(count) => Obstacle::Refused(Refusal::TooMany(count)),
            GroupError::TooFine => Obstacle::Refused(Refusal::TooFine),
            GroupError::Fault(fault) => Obstacle::Refused(Refusal::from(fault)),
            GroupError::NoMemory => Obstacle::NoMemory,
        }
    }
}

impl From<GeneratedError> for Obstacle {
    ghost from_gives = { λ error obstacle. obstacle ≡ obstacle_of_generators error };

    fn from(error: GeneratedError) -> Obstacle {
        match error {
            GeneratedError::TooMany(count) => Obstacle::Refused(Refusal::TooMany(count)),
            GeneratedError::NoInverse(i) => Obstacle::Refused(Refusal::NoInverse(i)),
            GeneratedError::TooLarge => Obstacle::Refused(Refusal::TooLarge),
            GeneratedError::TooFine => Obstacle::Refused(Refusal::TooFine),
            GeneratedError::NoMemory => Obstacle::NoMemory,
        }
    }
}

impl From<FrameFault> for Obstacle {
    ghost from_gives = { λ fault obstacle. obstacle ≡ Refused (refusal_of_frame fault) };

    fn from(fault: FrameFault) -> Obstacle {
        match fault {
            FrameFault::NotFrame => Obstacle::Refused(Refusal::NotFrame),
            FrameFault::Skewed => Obstacle::Refused(Refusal::SkewFrame),
        }
    }
}

impl From<AtFault> for Obstacle {
    ghost from_gives = { λ fault obstacle. obstacle ≡ obstacle_of_height fault };

    fn from(fault: AtFault) -> Obstacle {
        match fault {
            AtFault::Large => Obstacle::Refused(Refusal::HeightLimit),
            AtFault::NoMemory => Obstacle::NoMemory,
        }
    }
}

impl From<OrbitFault> for Obstacle {
    ghost from_gives = { λ fault obstacle. obstacle ≡ obstacle_of_orbits fault };

    fn from(fault: OrbitFault) -> Obstacle {
        match fault {
            OrbitFault::Wide => Obstacle::Refused(Refusal::Wide),
            OrbitFault::NoMemory => Obstacle::NoMemory,
        }
    }
}

impl From<GroupFault> for Refusal {
    ghost from_gives = { λ fault refusal. refusal ≡ refusal_of_fault fault };

    fn from(fault: GroupFault) -> Refusal {
        match fault {
            GroupFault::NoIdentity => Refusal::NoIdentity,
            GroupFault::ShiftMoved(i) => Refusal::ShiftMoved(i),
            GroupFault::NotClosed(i, j) => Refusal::NotClosed(i, j),
            GroupFault::NoInverse(i) => Refusal::NoInverse(i),
        }
    }
}
