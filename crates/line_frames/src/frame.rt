// The frame of the lines of a plane group.
ghost use Rattle.std.specs.Prelude.{◌≡◌, pos};
ghost use Rattle.symmetry.specs.Groups.{Listing};
ghost use Rattle.closure.specs.Groups.{group_listing, IsGroupOf};
ghost use Rattle.line_frames.specs.LineFrames.{IsLineFrameOf};
ghost use Rattle.plane_groups.specs.PlaneGroups.{IsFlatGroup};

use crate::directions::{along_lines, repeat_along, sense};
use crate::means::mean;
use crate::members::{first_above, height_of};
use closure::Group;
use fractions::{Part, UNIT};
use motions::Miller;
use plane_lattice::Frame;

/// The frame of the lines h x + k y = s of a plane group, as one of the planes (h k 0).
///
/// The vector a is the lexicographically greater of the two vectors whose whole multiples are the translations along the
/// lines. The vector tau leads from one line to the next of the same kind, and of such vectors it is the one that lies
/// from 0 to below a in the first coordinate in which a is not 0. The vector b is the edge along the third axis, or its
/// opposite, so that the frame is right-handed. Vectors and the period are counted in parts.
///
/// Each operation of the group is flat, and each vector of its lattice has a whole third entry. The frame may be skewed.
pub fn line_frame(group: &Group, plane: Miller) -> Frame
    requires group { IsFlatGroup (group_listing group.now) }
    requires line { plane.l ≡ pos 0 }
    ensures { (g : Listing) → IsGroupOf g group.now → IsLineFrameOf g plane result }
{
    let sense = sense(&plane);
    let a = along_lines(&plane, sense * repeat_along(group, &plane));
    let b = [Part(0), Part(0), Part(-sense * UNIT)];
    let tau = first_above(group, &plane, &a);
    let period = height_of(&plane, &tau);
    let c = mean(group.ops(), &plane, &tau);
    Frame {
        plane,
        a,
        b,
        tau,
        period,
        c,
    }
}
