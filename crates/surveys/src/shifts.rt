// How far the operations that turn the row shift the planes.
ghost use Rattle.std.specs.Prelude.{◌≤◌, ◌+◌, ◌≤ℤ◌, pos, IfOk, OnOk, vec_len};
ghost use Rattle.fractions.specs.declared.part.TheConstants.{UNIT};
ghost use Rattle.motions.specs.Views.{row_of};
ghost use Rattle.closure.specs.Groups.{group_listing};
ghost use Rattle.surveys.specs.Additions.{IsWith};
ghost use Rattle.surveys.specs.Surveys.{ListsSet};
ghost use Rattle.surveys.specs.TurnedShifts.{IsTurnedShift};

use closure::Group;
use fractions::Part;
use motions::{Miller, turned_shift};
use std::alloc::{AllocError, Global};

/// The (hkl).w of the operations that turn the row, modulo the period, each once.
pub(crate) fn turned_shifts(
    alloc: Global,
    group: &Group,
    plane: &Miller,
    period: Part,
) -> Result<Vec<i64>, AllocError>
    requires from { pos 1 ≤ℤ period.0 }
    requires most { period.0 ≤ℤ UNIT }
    ensures each { IfOk result (λ shifts.
        ListsSet (IsTurnedShift (row_of plane.now) period.0 (group_listing group.now).ops)
        shifts.items) }
    ensures few { IfOk result (λ shifts. vec_len shifts ≤ 192) }
{
    let mut shifts = Vec::new(alloc);
    for m in group.ops() {
        if let Some(shift) = turned_shift(m, plane, period) {
            add_shift(&mut shifts, shift)?;
        }
    }
    Ok(shifts)
}

/// Appends the number where it is not listed.
fn add_shift(shifts: &mut Vec<i64>, shift: i64) -> Result<(), AllocError>
    ensures with { OnOk result (IsWith shifts.old.items shift shifts.new.items) }
    ensures few { OnOk result (vec_len shifts.new ≤ vec_len shifts.old + 1) }
{
    if !shifts.contains(&shift) {
        shifts.push(shift)?;
    }
    Ok(())
}
