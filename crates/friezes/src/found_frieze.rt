// What recognition finds along a line.
ghost use Rattle.std.specs.Prelude.{◌<◌, ◌≤◌};
ghost use Rattle.friezes.specs.declared.found_frieze.TheConstants.{GRID};

use fractions::UNIT;

/// Origins along a line are counted in parts of which a cell edge has this many: in halves of a half part, since
/// what turns the line moves the origin twice as far.
pub const GRID: u32 = 4 * UNIT as u32;

/// A change onto a frieze type: the number of the type, and its origin x on the line of the section, in
/// parts of which a cell edge has [`GRID`](crate::GRID).
#[derive(Clone, Copy, Debug, PartialEq, Eq)]
pub struct FoundFrieze {
    pub number: u8,
    pub x: u32,
    pub ghost from: { 1 ≤ number },
    pub ghost to: { number ≤ 7 },
    pub ghost within: { x < GRID },
}
