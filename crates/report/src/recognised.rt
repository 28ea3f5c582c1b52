// The layer types of the sections of an orientation.
ghost use Rattle.std.specs.Prelude.{◌≡◌, ◌*ℤ◌, ◌≤ℤ◌, ◌<ℤ◌, ℤ, pos, All, IfOk, map, option_map};
ghost use Rattle.std.specs.List.{AllZip};
ghost use Rattle.fractions.specs.FractionOf.{fraction_of};
ghost use Rattle.fractions.specs.declared.part.TheConstants.{UNIT};
ghost use Rattle.symmetry.specs.Vectors.{dot};
ghost use Rattle.motions.specs.Views.{motion_of, parts, row_of};
ghost use Rattle.closure.specs.Groups.{group_listing};
ghost use Rattle.integers.specs.Size.{IsWithin};
ghost use Rattle.plane_lattice.specs.Bounds.{largest_period};
ghost use Rattle.plane_lattice.specs.FrameOf.{IsMadeFor};
ghost use Rattle.plane_lattice.specs.FrameView.{basis_of_frame};
ghost use Rattle.plane_lattice.specs.Sections.{height_in_steps};
ghost use Rattle.scanning.specs.HeightView.{special_of};
ghost use Rattle.recognition.specs.Search.{change_of};
ghost use Rattle.recognition.specs.Sections.{IsSmallMotion};
ghost use Rattle.plane_lattice.specs.SmallHeights.{IsSmallHeight};
ghost use Rattle.report.specs.FoundChanges.{IsGeneralType, IsTypeAt};
ghost use Rattle.report.specs.SectionTypes.{IsAtStep, IsGeneralList, IsOnPlane, IsSeen, IsSpecialList};

use crate::at::NoMemory;
use closure::Group;
use fractions::{Part, Ratio, UNIT, whole_quotient};
use motions::{LayerMotion, Motion3};
use plane_lattice::Frame;
use recognition::{Found, Steps, layer_type};
use scanning::Height;
use std::alloc::Global;
use std::sync::ledger::Ledger;

/// The first change of the general section.
pub(crate) fn general_type<L: Ledger>(
    alloc: Global,
    group: &Group,
    frame: &Frame,
    ops: &[Motion3],
    steps: &mut Steps<L>,
) -> Result<Option<Found>, NoMemory>
    requires made { IsMadeFor group.now frame.now }
    requires ops { IsGeneralList (group_listing group.now) (row_of frame.now.plane)
        (basis_of_frame frame.now) (map motion_of ops.now) }
    ensures { IfOk result (λ found.
        IsGeneralType (group_listing group.now) (row_of frame.now.plane) (basis_of_frame frame.now)
        (option_map change_of found)) }
{
    let section = seen(alloc, group, frame, ops, 0)?;
    layer_type(alloc, &section, steps)
}

/// The first change of the section at each special height.
pub(crate) fn special_types<L: Ledger>(
    alloc: Global,
    group: &Group,
    frame: &Frame,
    special: &[Height],
    steps: &mut Steps<L>,
) -> Result<Vec<Option<Found>>, NoMemory>
    requires made { IsMadeFor group.now frame.now }
    requires small { All (λ h. IsSmallHeight (fraction_of h.s)) special.now }
    requires special { All (λ h. IsSpecialList (group_listing group.now) (row_of frame.now.plane)
        (basis_of_frame frame.now) (special_of h)) special.now }
    ensures { IfOk result (λ types. AllZip (λ h found.
        IsTypeAt (group_listing group.now) (row_of frame.now.plane) (basis_of_frame frame.now)
        (fraction_of h.s) (option_map change_of found))
        special.now types.items) }
{
    let mut types = Vec::new(alloc);
    for height in special {
        types.push(special_type(alloc, group, frame, height, steps)?)?;
    }
    Ok(types)
}

fn special_type<L: Ledger>(
    alloc: Global,
    group: &Group,
    frame: &Frame,
    height: &Height,
    steps: &mut Steps<L>,
) -> Result<Option<Found>, NoMemory>
    requires made { IsMadeFor group.now frame.now }
    requires small { IsSmallHeight (fraction_of height.now.s) }
    requires height { IsSpecialList (group_listing group.now) (row_of frame.now.plane)
        (basis_of_frame frame.now) (special_of height.now) }
    ensures { IfOk result (λ found.
        IsTypeAt (group_listing group.now) (row_of frame.now.plane) (basis_of_frame frame.now)
        (fraction_of height.now.s) (option_map change_of found)) }
{
    let step = step_of(height.s, frame.period);
    let section = seen(alloc, group, frame, &height.ops, step)?;
    layer_type(alloc, &section, steps)
}

// How many steps the height is above the origin, of which a period has 2 UNIT.
fn step_of(s: Ratio, period: Part) -> i64
    requires small { IsSmallHeight (fraction_of s) }
    requires period { IsWithin largest_period period.0 }
    requires above { pos 1 ≤ℤ period.0 }
    requires stands { (k : ℤ) × IsAtStep period.0 (fraction_of s) k }
    ensures { IsAtStep period.0 (fraction_of s) result }
{
    let parts = s.num() as i64 * (2 * UNIT * UNIT);
    let over = s.den() as i64 * period.0;
    let Some(step) = whole_quotient(i128::from(parts), i128::from(over)) else {
        unreachable!()
    };
    step as i64
}

// The motions, seen from so many steps along tau.
fn seen(
    alloc: Global,
    group: &Group,
    frame: &Frame,
    ops: &[Motion3],
    step: i64,
) -> Result<Vec<LayerMotion>, NoMemory>
    requires made { IsMadeFor group.now frame.now }
    requires from { pos 0 ≤ℤ step }
    requires below { step <ℤ (pos 2 *ℤ UNIT) }
    requires ops { let r = row_of frame.now.plane in
        All (IsOnPlane (group_listing group.now) r (basis_of_frame frame.now)
        (height_in_steps (dot r (parts frame.now.tau)) step))
        (map motion_of ops.now) }
    ensures seen { IfOk result (λ section. AllZip
        (IsSeen (group_listing group.now) (row_of frame.now.plane) (basis_of_frame frame.now) step)
        (map motion_of ops.now) section.items) }
    ensures small { IfOk result (λ section. All IsSmallMotion section.items) }
{
    let mut section = Vec::new(alloc);
    for m in ops {
        section.push(seen_motion(group, frame, m, step))?;
    }
    Ok(section)
}

fn seen_motion(group: &Group, frame: &Frame, m: &Motion3, step: i64) -> LayerMotion
    requires made { IsMadeFor group.now frame.now }
    requires from { pos 0 ≤ℤ step }
    requires below { step <ℤ (pos 2 *ℤ UNIT) }
    requires motion { let r = row_of frame.now.plane in
        IsOnPlane (group_listing group.now) r (basis_of_frame frame.now)
        (height_in_steps (dot r (parts frame.now.tau)) step) (motion_of m.now) }
    ensures seen { IsSeen (group_listing group.now) (row_of frame.now.plane)
        (basis_of_frame frame.now) step (motion_of m.now) result }
    ensures small { IsSmallMotion result }
{
    let Some(n) = frame.section(group, m, step) else {
        unreachable!()
    };
    n
}
