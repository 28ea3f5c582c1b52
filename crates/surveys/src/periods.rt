// The period of an orientation, told by the lattice.
ghost use Rattle.std.specs.Prelude.{◌≡◌, ◌≤ℤ◌, pos, unsigned_abs};
ghost use Rattle.std.specs.Int.{IsGcd};
ghost use Rattle.fractions.specs.declared.part.TheConstants.{UNIT};
ghost use Rattle.symmetry.specs.Frames.{IsPeriod};
ghost use Rattle.symmetry.specs.Vectors.{dot};
ghost use Rattle.motions.specs.Views.{parts, row_of};
ghost use Rattle.closure.specs.Groups.{group_listing};
ghost use Rattle.closure.specs.Residues.{IsResidue};

use closure::Group;
use fractions::{Part, UNIT, greatest_common_divisor};
use motions::Miller;

/// The least positive (hkl).v of the vectors v of the lattice, in parts: the greatest common divisor of those of the
/// residues and of [`UNIT`], which a whole vector has since (hkl) is coprime.
pub(crate) fn period(group: &Group, plane: &Miller) -> Part
    ensures is { IsPeriod (group_listing group.now) (row_of plane.now) result.0 }
    ensures most { result.0 ≤ℤ UNIT }
{
    let mut period = UNIT;
    for v in group.lattice().residues() {
        period = common_divisor(period, height_of(plane, v));
    }
    Part(period)
}

/// The number (hkl).v of a residue.
fn height_of(plane: &Miller, v: &[Part; 3]) -> i64
    requires { IsResidue v.now }
    ensures { result ≡ dot (row_of plane.now) (parts v.now) }
{
    plane.h * v[0].0 + plane.k * v[1].0 + plane.l * v[2].0
}

/// The greatest common divisor of a period and a number.
fn common_divisor(period: i64, height: i64) -> i64
    requires from { pos 1 ≤ℤ period }
    requires most { period ≤ℤ UNIT }
    ensures is { IsGcd (unsigned_abs period) (unsigned_abs height) (unsigned_abs result) }
    ensures from { pos 1 ≤ℤ result }
    ensures most { result ≤ℤ UNIT }
{
    greatest_common_divisor(period.unsigned_abs().into(), height.unsigned_abs().into()) as i64
}
