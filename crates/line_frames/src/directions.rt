// Vectors along lines.
ghost use Rattle.std.specs.Prelude.{◌≡◌, ◌⊎◌, pos, negsuc, unsigned_abs};
ghost use Rattle.fractions.specs.declared.part.TheConstants.{UNIT};
ghost use Rattle.integers.specs.Size.{IsWithin};
ghost use Rattle.symmetry.specs.Sizes.{IsVectorWithin};
ghost use Rattle.motions.specs.Views.{parts, row_of};
ghost use Rattle.closure.specs.Groups.{group_listing};
ghost use Rattle.plane_lattice.specs.Bounds.{largest_entry};
ghost use Rattle.line_frames.specs.Searches.{along_lines, IsRepeat, IsSense};

use closure::Group;
use fractions::{Part, UNIT};
use motions::Miller;

/// The vector n (k, -h), which lies along the lines (h k).
pub(crate) fn along_lines(plane: &Miller, n: i64) -> [Part; 3]
    requires { IsWithin (unsigned_abs UNIT) n }
    ensures is { parts result ≡ along_lines (row_of plane.now) n }
    ensures small { IsVectorWithin largest_entry (parts result) }
{
    [Part(n * plane.k), Part(n * -plane.h), Part(0)]
}

/// The sign e for which the first entry of e (k, -h) that is not 0 is positive.
pub(crate) fn sense(plane: &Miller) -> i64
    requires { plane.now.l ≡ pos 0 }
    ensures sign { (result ≡ pos 1) ⊎ (result ≡ negsuc 0) }
    ensures forward { IsSense (row_of plane.now) result }
{
    if plane.k > 0 {
        return 1;
    }
    if plane.k < 0 {
        return -1;
    }
    if plane.h < 0 { 1 } else { -1 }
}

/// The least n from 1 on for which n (k, -h), counted in parts, is a translation.
pub(crate) fn repeat_along(group: &Group, plane: &Miller) -> i64
    ensures { IsRepeat (group_listing group.now) (row_of plane.now) result }
{
    for n in 1..UNIT {
        if group.has(along_lines(plane, n)) {
            return n;
        }
    }
    UNIT
}
