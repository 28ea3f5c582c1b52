// Why what is listed makes no group.
ghost use Rattle.std.specs.Prelude.{◌≡◌};
ghost use Rattle.closure.specs.declared.group_error.GroupError.TheVariants.{Fault, NoMemory};
ghost use Rattle.closure.specs.FromLattice.{error_of};

use crate::lattice_fault::LatticeFault;
use quotient::GroupFault;
use std::alloc::AllocError;

/// Why what is listed makes no [`Group`](crate::Group).
#[derive(Clone, Copy, PartialEq, Eq, Debug)]
pub enum GroupError {
    /// More than [`MAX_OPERATIONS`](crate::MAX_OPERATIONS) operations are listed: so many.
    TooMany(usize),
    /// The lattice has more than [`MAX_RESIDUES`](crate::MAX_RESIDUES) residues modulo whole cell edges.
    TooFine,
    /// The operations are no group modulo the lattice. Positions count the distinct operations, from 1.
    Fault(GroupFault),
    /// There is no memory.
    NoMemory,
}

impl From<LatticeFault> for GroupError {
    ghost from_gives = { λ fault error. error ≡ error_of fault };

    fn from(fault: LatticeFault) -> GroupError {
        match fault {
            LatticeFault::TooFine => GroupError::TooFine,
            LatticeFault::NoMemory => GroupError::NoMemory,
        }
    }
}

impl From<GroupFault> for GroupError {
    ghost from_gives = { λ fault error. error ≡ Fault fault };

    fn from(fault: GroupFault) -> GroupError {
        GroupError::Fault(fault)
    }
}

impl From<AllocError> for GroupError {
    ghost from_gives = { λ _ error. error ≡ NoMemory };

    fn from(_error: AllocError) -> GroupError {
        GroupError::NoMemory
    }
}
