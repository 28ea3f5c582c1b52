// The groups, each made from what it lists.
ghost use Rattle.std.specs.Prelude.{◌^◌, All, unsigned_abs};
ghost use Rattle.symmetry.specs.Sizes.{IsVectorWithin};
ghost use Rattle.motions.specs.ListedSizes.{IsSmallWithin};
ghost use Rattle.motions.specs.Views.{motion_of, parts};
ghost use Rattle.closure.specs.declared.group.TheConstants.{MAX_ENTRY};

use crate::operations::{
    FOURFOLD, FOURFOLD_SCREW, GLIDE_ALONG_C, IDENTITY, INVERSION, MIRROR_ACROSS_B, MIRROR_ACROSS_C,
    ROTOINVERSIONS, SCREW_ALONG_B, THREE_SCREWS, THREEFOLD, TURN_ABOUT_B, TURN_ABOUT_C,
};
use crate::shifts::{HALF, NONE};
use closure::{Group, GroupError};
use fractions::Part;
use motions::{Listed, Motion3};
use std::alloc::Global;

/// The group with these motions and centring vectors, in parts. An error comes exactly where they are no group, or memory
/// ran out.
pub fn group_of(
    alloc: Global,
    ops: &[Motion3],
    centrings: &[[Part; 3]],
) -> Result<Group, GroupError>
    requires ops { All (λ m. IsSmallWithin (unsigned_abs MAX_ENTRY) (motion_of m)) ops.now }
    requires centrings { All (λ v. IsVectorWithin (2 ^ 40) (parts v)) centrings.now }
{
    let ops = Vec::from_slice(alloc, ops)?;
    let centrings = Vec::from_slice(alloc, centrings)?;
    Group::make(
        alloc,
        Listed {
            ops,
            centrings,
            generated: false,
        },
    )
}

/// P1: the identity.
pub fn p1(alloc: Global) -> Result<Group, GroupError> {
    group_of(alloc, &[IDENTITY], &[])
}

/// P-1: the inversion.
pub fn p_1(alloc: Global) -> Result<Group, GroupError> {
    group_of(alloc, &[IDENTITY, INVERSION], &[])
}

/// P2, unique axis b.
pub fn p2(alloc: Global) -> Result<Group, GroupError> {
    group_of(alloc, &[IDENTITY, TURN_ABOUT_B], &[])
}

/// P2/m, unique axis c.
pub fn p2_over_m(alloc: Global) -> Result<Group, GroupError> {
    group_of(
        alloc,
        &[IDENTITY, INVERSION, MIRROR_ACROSS_C, TURN_ABOUT_C],
        &[],
    )
}

/// C2/m, unique axis b.
pub fn c2_over_m(alloc: Global) -> Result<Group, GroupError> {
    group_of(
        alloc,
        &[IDENTITY, TURN_ABOUT_B, INVERSION, MIRROR_ACROSS_B],
        &[[HALF, HALF, NONE]],
    )
}

/// P2_1/c, unique axis b.
pub fn p2_1_over_c(alloc: Global) -> Result<Group, GroupError> {
    group_of(
        alloc,
        &[IDENTITY, SCREW_ALONG_B, INVERSION, GLIDE_ALONG_C],
        &[],
    )
}

/// P2_12_12_1: three screw axes.
pub fn p2_12_12_1(alloc: Global) -> Result<Group, GroupError> {
    group_of(alloc, &THREE_SCREWS, &[])
}

/// P4: a fourfold axis along c.
pub fn p4(alloc: Global) -> Result<Group, GroupError> {
    group_of(alloc, &FOURFOLD, &[])
}

/// P4_1: a fourfold screw axis along c.
pub fn p4_1(alloc: Global) -> Result<Group, GroupError> {
    group_of(alloc, &FOURFOLD_SCREW, &[])
}

/// P3: a threefold axis along c, in hexagonal axes.
pub fn p3(alloc: Global) -> Result<Group, GroupError> {
    group_of(alloc, &THREEFOLD, &[])
}

/// P-3 about the diagonal of a cube.
pub fn p_3(alloc: Global) -> Result<Group, GroupError> {
    group_of(alloc, &ROTOINVERSIONS, &[])
}
