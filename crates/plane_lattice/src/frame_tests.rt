// Tests of a basis that together tell whether it is a frame.
ghost use Rattle.std.specs.Prelude.{◌≡◌, ◌↔◌, ◌^◌, ◌≤ℤ◌, pos, All, IsTrue};
ghost use Rattle.integers.specs.Size.{IsWithin};
ghost use Rattle.symmetry.specs.Sizes.{IsVectorWithin};
ghost use Rattle.symmetry.specs.Vectors.{dot};
ghost use Rattle.motions.specs.BasisView.{basis_of};
ghost use Rattle.motions.specs.Views.{parts, row_of};
ghost use Rattle.plane_lattice.specs.Bounds.{largest_entry, largest_period};
ghost use Rattle.plane_lattice.specs.Coordinates.{HoldsEdges, IsCombination, volume};
ghost use Rattle.plane_lattice.specs.FrameTests.{IsOriented};

use crate::coordinates::row_by_column;
use crate::dual_basis::DualBasis;
use fractions::{Part, UNIT};
use motions::Miller;

/// Whether a and b lie in the planes, tau points above them, and a and b are right-handed seen from there.
pub(crate) fn is_oriented(plane: &Miller, dual: &DualBasis) -> bool
    ensures { IsTrue result ↔ IsOriented (row_of plane.now) (basis_of dual.now.basis) }
{
    if height_of(plane, &dual.basis.a) != 0 || height_of(plane, &dual.basis.b) != 0 {
        return false;
    }
    if height_of(plane, &dual.basis.tau) <= 0 {
        return false;
    }
    // The cross product of a and b is c (hkl), and the volume is c (hkl).tau.
    dual.volume > 0
}

/// The number (hkl).v of a vector.
pub(crate) fn height_of(plane: &Miller, v: &[Part; 3]) -> i128
    requires { IsVectorWithin largest_entry (parts v.now) }
    ensures is { result ≡ dot (row_of plane.now) (parts v.now) }
    ensures small { IsWithin largest_period result }
{
    let row = [plane.h, plane.k, plane.l];
    row_by_column(&row, v)
}

/// Whether each cell edge is a whole combination of the basis.
pub(crate) fn holds_edges(dual: &DualBasis) -> bool
    requires { pos 1 ≤ℤ volume (basis_of dual.now.basis) }
    ensures { IsTrue result ↔ HoldsEdges (basis_of dual.now.basis) }
{
    if !is_combination(dual, &[Part(UNIT), Part(0), Part(0)]) {
        return false;
    }
    if !is_combination(dual, &[Part(0), Part(UNIT), Part(0)]) {
        return false;
    }
    is_combination(dual, &[Part(0), Part(0), Part(UNIT)])
}

/// Whether each of the vectors is a whole combination of the basis.
pub(crate) fn holds_all(dual: &DualBasis, vectors: &[[Part; 3]]) -> bool
    requires volume { pos 1 ≤ℤ volume (basis_of dual.now.basis) }
    requires vectors { All (λ v. IsVectorWithin (2 ^ 52) (parts v)) vectors.now }
    ensures { IsTrue result
        ↔ All (λ v. IsCombination (basis_of dual.now.basis) (parts v)) vectors.now }
{
    vectors.iter().all(|v| is_combination(dual, v))
}

/// Whether a vector is a whole combination of the basis.
fn is_combination(dual: &DualBasis, v: &[Part; 3]) -> bool
    requires volume { pos 1 ≤ℤ volume (basis_of dual.now.basis) }
    requires vector { IsVectorWithin (2 ^ 52) (parts v.now) }
    ensures { IsTrue result ↔ IsCombination (basis_of dual.now.basis) (parts v.now) }
{
    dual.coordinates(v).is_some()
}
