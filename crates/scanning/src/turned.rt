// The levels of the special heights: twice each, in parts.
ghost use Rattle.std.specs.Prelude.{All, IfOk, map};
ghost use Rattle.motions.specs.Views.{motion_of, row_of};
ghost use Rattle.scanning.specs.Levels.{AreLevels, AreTurned};
ghost use Rattle.scanning.specs.Members.{IsHomeOf};

use crate::homes::NoMemory;
use motions::{Motion3, turned_shift};
use plane_lattice::Frame;
use std::alloc::Global;

/// The numbers from 0 to below two periods that are whole periods from the (hkl).w of a motion that turns the row,
/// rising: twice the special heights from 0 to below the period, in parts.
pub(crate) fn special_levels(
    alloc: Global,
    homes: &[Motion3],
    frame: &Frame,
) -> Result<Vec<i64>, NoMemory>
    requires { All (IsHomeOf frame.now) homes.now }
    ensures { IfOk result (λ levels.
        AreLevels (row_of frame.now.plane) frame.now.period.0
        (map motion_of homes.now) levels.items) }
{
    let mut levels = turned_levels(alloc, homes, frame)?;
    levels.sort_unstable();
    levels.dedup();
    Ok(levels)
}

/// The same in any order, each at least once.
fn turned_levels(alloc: Global, homes: &[Motion3], frame: &Frame) -> Result<Vec<i64>, NoMemory>
    requires { All (IsHomeOf frame.now) homes.now }
    ensures { IfOk result (λ levels.
        AreTurned (row_of frame.now.plane) frame.now.period.0
        (map motion_of homes.now) levels.items) }
{
    let mut levels = Vec::new(alloc);
    for m in homes {
        if let Some(level) = turned_shift(m, &frame.plane, frame.period) {
            levels.push(level)?;
            levels.push(level + frame.period.0)?;
        }
    }
    Ok(levels)
}
