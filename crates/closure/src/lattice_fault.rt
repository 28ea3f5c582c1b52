// Why vectors make no lattice.
ghost use Rattle.std.specs.Prelude.{◌≡◌};
ghost use Rattle.closure.specs.declared.lattice_fault.LatticeFault.TheVariants.{NoMemory};

use std::alloc::{AllocError, AllocFailed};

/// Why vectors make no [`Lattice`](crate::Lattice).
#[derive(Clone, Copy, PartialEq, Eq, Debug)]
pub enum LatticeFault {
    /// There are more than [`MAX_RESIDUES`](crate::MAX_RESIDUES) residues modulo whole cell edges.
    TooFine,
    /// There is no memory.
    NoMemory,
}

impl From<AllocError> for LatticeFault {
    ghost from_gives = { λ _ fault. fault ≡ NoMemory };

    fn from(_error: AllocError) -> LatticeFault {
        LatticeFault::NoMemory
    }
}

impl<T: Drop> From<AllocFailed<T>> for LatticeFault {
    ghost from_gives = { λ _ fault. fault ≡ NoMemory };

    fn from(_error: AllocFailed<T>) -> LatticeFault {
        LatticeFault::NoMemory
    }
}
