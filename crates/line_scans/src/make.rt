// The lines of a plane group.
ghost use Rattle.std.specs.Prelude.{◌≡◌, ℤ, pos, All, IfOk, map};
ghost use Rattle.std.specs.List.{AllZip};
ghost use Rattle.fractions.specs.Fractions.{fraction_at};
ghost use Rattle.symmetry.specs.Groups.{Listing};
ghost use Rattle.motions.specs.Views.{motion_of, row_of};
ghost use Rattle.closure.specs.Groups.{IsGroupOf, group_listing};
ghost use Rattle.plane_lattice.specs.FrameView.{basis_of_frame};
ghost use Rattle.line_frames.specs.LineFrames.{IsLineFrameOf};
ghost use Rattle.line_frames.specs.Lines.{first_two};
ghost use Rattle.plane_groups.specs.PlaneGroups.{IsFlatGroup};
ghost use Rattle.line_scans.specs.LineOps.{AreLineMotions, IsStep};
ghost use Rattle.line_scans.specs.LineScans.{IsLineScan};
ghost use Rattle.line_scans.specs.LineView.{IsLineHeightOf, line_scan_of};
ghost use Rattle.line_scans.specs.SmallLineScans.{IsSmallLineScan};

use crate::scan::{LineHeight, LineScan};
use crate::section::{NoMemory, line_section};
use crate::viewpoint::Viewpoint;
use closure::Group;
use fractions::Ratio;
use line_frames::line_frame;
use motions::Miller;
use plane_lattice::Frame;
use scanning::{Height, Scan};
use std::alloc::Global;

/// The lines h x + k y = s of a plane group, which is given as a group of space, with the plane (h k 0).
///
/// Every rational height is in one class: it is general, or it is a whole number of periods above one special height. The
/// operations at each are the motions of the plane group that map the line to itself, once each modulo whole multiples of
/// a, at home in the frame of the lines, and in the order of the group's operations. Each section has its first change
/// onto a frieze type (International Tables, Volume E, frieze groups).
///
/// Each operation of the group is flat, and each vector of its lattice has a whole third entry. The vectors, the period and
/// the heights are so small that the origins of the sections can be computed with them (`IsSmallLineScan`).
pub fn lines(alloc: Global, group: &Group, plane: Miller) -> Result<LineScan, NoMemory>
    requires group { IsFlatGroup (group_listing group.now) }
    requires line { plane.l ≡ pos 0 }
    ensures is { (g : Listing) → IsGroupOf g group.now →
        IfOk result (λ scan.
        IsLineScan g (record { x = plane.h; y = plane.k }) (line_scan_of scan)) }
    ensures small { IfOk result IsSmallLineScan }
{
    let frame = line_frame(group, plane);
    lines_in(alloc, group, &frame)
}

/// The same in the frame of the lines.
fn lines_in(alloc: Global, group: &Group, frame: &Frame) -> Result<LineScan, NoMemory>
    requires group { IsFlatGroup (group_listing group.now) }
    requires line { frame.now.plane.l ≡ pos 0 }
    requires frame { (g : Listing) → IsGroupOf g group.now →
        IsLineFrameOf g frame.now.plane frame.now }
    ensures is { (g : Listing) → IsGroupOf g group.now →
        IfOk result (λ scan.
        IsLineScan g (first_two (row_of frame.now.plane)) (line_scan_of scan)) }
    ensures small { IfOk result IsSmallLineScan }
{
    let scan = Scan::make(alloc, group, frame)?;
    let origin = Viewpoint {
        frame: *frame,
        step: 0,
    };
    let general = line_section(alloc, &origin, &scan.general)?;
    let heights = line_heights(alloc, frame, &scan.special)?;
    Ok(LineScan {
        h: frame.plane.h,
        k: frame.plane.k,
        a: [frame.a[0], frame.a[1]],
        tau: [frame.tau[0], frame.tau[1]],
        period: frame.period,
        c: in_plane(&frame.c),
        general,
        heights,
    })
}

/// The first two of three ratios.
fn in_plane(c: &[Ratio; 3]) -> [Ratio; 2]
    ensures first { fraction_at result 0 ≡ fraction_at c.now 0 }
    ensures second { fraction_at result 1 ≡ fraction_at c.now 1 }
{
    [c[0], c[1]]
}

/// The section at each special height.
fn line_heights(
    alloc: Global,
    frame: &Frame,
    special: &[Height],
) -> Result<Vec<LineHeight>, NoMemory>
    requires steps { All (λ h. (k : ℤ) × IsStep frame.now.period.0 h.level k) special.now }
    requires motions { All (λ h. (k : ℤ) → IsStep frame.now.period.0 h.level k →
        AreLineMotions (row_of frame.now.plane) (basis_of_frame frame.now) k
        (map motion_of h.ops.items)) special.now }
    ensures { IfOk result (λ heights.
        AllZip (IsLineHeightOf (row_of frame.now.plane)
        (basis_of_frame frame.now) frame.now.period.0) special.now heights.items) }
{
    let mut heights = Vec::new(alloc);
    for height in special {
        heights.push(line_height(alloc, frame, height)?)?;
    }
    Ok(heights)
}

/// The section at a special height.
fn line_height(alloc: Global, frame: &Frame, height: &Height) -> Result<LineHeight, NoMemory>
    requires step { (k : ℤ) × IsStep frame.now.period.0 height.now.level k }
    requires motions { (k : ℤ) → IsStep frame.now.period.0 height.now.level k →
        AreLineMotions (row_of frame.now.plane) (basis_of_frame frame.now) k
        (map motion_of height.now.ops.items) }
    ensures { IfOk result (IsLineHeightOf (row_of frame.now.plane)
        (basis_of_frame frame.now) frame.now.period.0 height.now) }
{
    let point = Viewpoint::at(frame, height);
    Ok(LineHeight {
        s: height.s,
        section: line_section(alloc, &point, &height.ops)?,
    })
}
