// Which calls of a device in memory fail.
ghost use Rattle.std.specs.Prelude.{◌≡◌, ◌↔◌, Contains, IsErr, OnErr, OnOk};
ghost use Rattle.devices.specs.Calls.{next_count};

use crate::faults::Faults;
use crate::traits::Failed;

/// Which calls of a device in memory fail, and how many calls and faults there were.
#[derive(Drop)]
pub(crate) struct Schedule {
    failing: Vec<u64>,
    calls: u64,
    faults: Faults,
}

impl Schedule {
    pub(crate) fn new(failing: Vec<u64>) -> Schedule
        ensures failing { result.failing.items ≡ failing.items }
        ensures calls { result.calls ≡ 0 }
        ensures faults { result.faults.count ≡ 0 }
    {
        Schedule {
            failing,
            calls: 0,
            faults: Faults::none(),
        }
    }

    /// Counts a call, which fails where its number is listed.
    pub(crate) fn begin(&mut self) -> Result<(), Failed>
        ensures listed { IsErr result
            ↔ Contains self.old.failing.items (next_count self.old.calls) }
        ensures calls { self.new.calls ≡ next_count self.old.calls }
        ensures failing { self.new.failing ≡ self.old.failing }
        ensures risen { OnErr result (self.new.faults.count ≡ next_count self.old.faults.count) }
        ensures unfailed { OnOk result (self.new.faults.count ≡ self.old.faults.count) }
    {
        self.calls = self.calls.saturating_add(1);
        if self.failing.contains(&self.calls) {
            return Err(self.fault());
        }
        Ok(())
    }

    /// Counts a fault.
    pub(crate) fn fault(&mut self) -> Failed
        ensures rest { self.new ≡ record self.old { faults = self.new.faults } }
        ensures risen { self.new.faults.count ≡ next_count self.old.faults.count }
    {
        self.faults.count()
    }
}
