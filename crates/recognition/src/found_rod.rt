// What recognition finds along a line.
ghost use Rattle.std.specs.Prelude.{◌<◌, ◌≤◌};
ghost use Rattle.motions.specs.PlaneSizes.{IsMatrix2Within};
ghost use Rattle.motions.specs.PlaneViews.{matrix2_of};

/// Origins along the axis of a rod are counted in parts of which the axis has this many.
pub const ROD_GRID: i64 = 96;

/// A change onto a rod type: the number of the type, the matrix, whose columns are the type's two vectors across the axis
/// in the section's basis, and the origin z, in parts of which the axis has [`ROD_GRID`](crate::ROD_GRID).
#[derive(Clone, Copy, Debug, PartialEq, Eq)]
pub struct FoundRod {
    pub number: u8,
    pub p: [[i64; 2]; 2],
    pub z: u32,
    pub ghost from: { 1 ≤ number },
    pub ghost to: { number ≤ 75 },
    pub ghost bounded: { IsMatrix2Within 2 (matrix2_of p) },
    pub ghost within: { z < 96 },
}
