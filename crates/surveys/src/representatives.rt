// Which orientations stand for their classes.
ghost use Rattle.std.specs.Prelude.{◌↔◌, IsTrue};
ghost use Rattle.symmetry.specs.Sizes.{IsSmall, IsVectorWithin};
ghost use Rattle.motions.specs.Views.{motion_of, row_of, vector_of};
ghost use Rattle.closure.specs.Groups.{group_listing};
ghost use Rattle.surveys.specs.Places.{HasGreaterImage, IsGreaterWithin};
ghost use Rattle.surveys.specs.Surveys.{IsRepresentative};

use crate::rows::{is_greater, is_within, opposite_row};
use closure::Group;
use motions::{Miller, Motion3, row_image};

/// Whether no greater orientation with indices at most `largest` in size is equivalent to (hkl), which has such indices.
pub(crate) fn is_representative(group: &Group, plane: &Miller, largest: u64) -> bool
    requires { IsVectorWithin largest (row_of plane.now) }
    ensures { IsTrue result
        ↔ IsRepresentative (group_listing group.now) largest (row_of plane.now) }
{
    group
        .ops()
        .iter()
        .all(|m| !has_greater_image(m, plane, largest))
}

/// Whether the image of (hkl) or its opposite is greater, with indices at most `largest` in size.
fn has_greater_image(m: &Motion3, plane: &Miller, largest: u64) -> bool
    requires { IsSmall (motion_of m.now) }
    ensures { IsTrue result ↔ HasGreaterImage largest (row_of plane.now) (motion_of m.now) }
{
    let image = row_image(m, plane);
    is_greater_within(&image, plane, largest)
        || is_greater_within(&opposite_row(&image), plane, largest)
}

/// Whether the row is greater than (hkl), with indices at most `largest` in size.
fn is_greater_within(row: &[i64; 3], plane: &Miller, largest: u64) -> bool
    ensures { IsTrue result ↔ IsGreaterWithin largest (row_of plane.now) (vector_of row.now) }
{
    is_within(row, largest) && is_greater(row, plane)
}
