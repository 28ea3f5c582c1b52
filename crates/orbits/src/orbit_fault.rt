// Why there are no orientations.
ghost use Rattle.std.specs.Prelude.{◌≡◌};
ghost use Rattle.orbits.specs.declared.orbit_fault.OrbitFault.TheVariants.{NoMemory};

use std::alloc::{AllocError, AllocFailed};

/// Why [`orientations`](crate::orientations) gives no rows.
#[derive(Clone, Copy, PartialEq, Eq, Debug)]
pub enum OrbitFault {
    /// An index of a row passes [`WIDE`](crate::WIDE) in size.
    Wide,
    /// There is no memory.
    NoMemory,
}

impl From<AllocError> for OrbitFault {
    ghost from_gives = { λ _ fault. fault ≡ NoMemory };

    fn from(_error: AllocError) -> OrbitFault {
        OrbitFault::NoMemory
    }
}

impl<T: Drop> From<AllocFailed<T>> for OrbitFault {
    ghost from_gives = { λ _ fault. fault ≡ NoMemory };

    fn from(_error: AllocFailed<T>) -> OrbitFault {
        OrbitFault::NoMemory
    }
}
