// The section of a line, from the motions that map the line to itself.
ghost use Rattle.std.specs.Prelude.{◌≡◌, All, IfOk, map};
ghost use Rattle.std.specs.List.{AllZip};
ghost use Rattle.symmetry.specs.Sizes.{IsSmall};
ghost use Rattle.motions.specs.Views.{motion_of, row_of};
ghost use Rattle.plane_lattice.specs.FrameView.{basis_of_frame};
ghost use Rattle.plane_motions.specs.PlaneMotions.{IsFlat, plane_block, plane_of};
ghost use Rattle.line_scans.specs.LineOps.{AreLineMotions, HasLineOp, IsLineOp, IsSectionOf};

use crate::scan::LineSection;
use crate::viewpoint::Viewpoint;
use friezes::{LineOp, frieze_type};
use motions::Motion3;
use plane_motions::{Motion2, flat};
use std::alloc::{AllocError, Global};

/// Memory ran out.
pub type NoMemory = AllocError;

/// The section that the motions are, seen from a point of the line that they map to itself.
pub(crate) fn line_section(
    alloc: Global,
    point: &Viewpoint,
    ops: &[Motion3],
) -> Result<LineSection, NoMemory>
    requires { AreLineMotions (row_of point.now.frame.plane)
        (basis_of_frame point.now.frame) point.now.step (map motion_of ops.now) }
    ensures { IfOk result (IsSectionOf (row_of point.now.frame.plane)
        (basis_of_frame point.now.frame) point.now.step (map motion_of ops.now)) }
{
    let section = line_ops(alloc, point, ops)?;
    Ok(LineSection {
        ops: pairs(alloc, ops)?,
        found: frieze_type(&section),
    })
}

/// What each motion does along the line.
fn line_ops(alloc: Global, point: &Viewpoint, ops: &[Motion3]) -> Result<Vec<LineOp>, NoMemory>
    requires small { All IsSmall (map motion_of ops.now) }
    requires lines { All (HasLineOp (row_of point.now.frame.plane)
        (basis_of_frame point.now.frame) point.now.step) (map motion_of ops.now) }
    ensures { IfOk result (λ list.
        AllZip (IsLineOp (row_of point.now.frame.plane)
        (basis_of_frame point.now.frame) point.now.step) (map motion_of ops.now) list.items) }
{
    let mut section = Vec::new(alloc);
    for m in ops {
        section.push(point.line_op(m))?;
    }
    Ok(section)
}

/// The flat motions as motions of the plane.
fn pairs(alloc: Global, ops: &[Motion3]) -> Result<Vec<Motion2>, NoMemory>
    requires { All IsFlat (map motion_of ops.now) }
    ensures { IfOk result (λ pairs.
        map motion_of ops.now ≡ map plane_block (map plane_of pairs.items)) }
{
    let mut pairs = Vec::new(alloc);
    for m in ops {
        pairs.push(pair(m))?;
    }
    Ok(pairs)
}

/// The flat motion as a motion of the plane.
fn pair(m: &Motion3) -> Motion2
    requires { IsFlat (motion_of m.now) }
    ensures { motion_of m.now ≡ plane_block (plane_of result) }
{
    let Some(pair) = flat(m) else { unreachable!() };
    pair
}
