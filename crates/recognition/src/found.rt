// What recognition finds.
ghost use Rattle.std.specs.Prelude.{◌<◌, ◌≤◌};
ghost use Rattle.motions.specs.PlaneViews.{matrix2_of};
ghost use Rattle.recognition.specs.Grid.{grid};
ghost use Rattle.recognition.specs.Order.{IsBoundedMatrix, IsTypeNumber};

use fractions::UNIT;

/// Origins are counted in parts of which a cell edge has this many.
pub const GRID: u32 = 12 * UNIT as u32;

/// A change onto a layer type: the number of the type, the matrix, whose columns are the type's two plane vectors in
/// the section's basis, and the origin (x, y), in parts of which a cell edge has [`GRID`](crate::GRID).
#[derive(Clone, Copy, PartialEq, Eq, Debug)]
pub struct Found {
    pub number: u8,
    pub p: [[i64; 2]; 2],
    pub x: u32,
    pub y: u32,
    ghost of_type: { IsTypeNumber number },
    ghost bounded: { IsBoundedMatrix (matrix2_of p) },
    ghost x_within: { x < grid },
    ghost y_within: { y < grid },
}
