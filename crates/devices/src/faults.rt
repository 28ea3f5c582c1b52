// Counts of faults.
ghost use Rattle.std.specs.Prelude.{◌≡◌, ◌≤◌};
ghost use Rattle.devices.specs.Calls.{IsCount, next_count};

use crate::traits::Failed;

/// How often a device failed. At its last number the count stays.
#[derive(Drop)]
pub(crate) struct Faults {
    count: u64,
    ghost most: { IsCount count },
}

impl Faults {
    pub(crate) fn none() -> Faults
        ensures { result.count ≡ 0 }
    {
        Faults { count: 0 }
    }

    /// Counts a fault.
    pub(crate) fn count(&mut self) -> Failed
        ensures next { self.new.count ≡ next_count self.old.count }
        ensures grows { self.old.count ≤ self.new.count }
    {
        self.count = self.count.saturating_add(1);
        Failed
    }
}
