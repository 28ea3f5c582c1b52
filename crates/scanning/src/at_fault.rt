// Why there is no list at a height.
ghost use Rattle.std.specs.Prelude.{◌≡◌};
ghost use Rattle.scanning.specs.declared.at_fault.AtFault.TheVariants.{NoMemory};

use std::alloc::AllocError;

/// Why there is no list of the operations at a height.
#[derive(Clone, Copy, PartialEq, Eq, Debug)]
pub enum AtFault {
    /// The numerator or the denominator of the height is above [`MOST_HEIGHT`](crate::MOST_HEIGHT) in size.
    Large,
    /// There is no memory.
    NoMemory,
}

impl From<AllocError> for AtFault {
    ghost from_gives = { λ _ fault. fault ≡ NoMemory };

    fn from(_error: AllocError) -> AtFault {
        AtFault::NoMemory
    }
}
