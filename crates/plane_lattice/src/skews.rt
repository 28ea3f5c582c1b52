// Whether scanning operations have large matrix entries in a basis.
ghost use Rattle.std.specs.Prelude.{◌≡◌, ◌↔◌, ◌^◌, ◌⊎◌, ℤ, ◌≤ℤ◌, pos, All, Contains, IsTrue, map};
ghost use Rattle.integers.specs.Size.{IsWithin};
ghost use Rattle.symmetry.specs.Motions.{Motion};
ghost use Rattle.symmetry.specs.Sizes.{IsSmall, IsVectorWithin};
ghost use Rattle.symmetry.specs.Vectors.{image};
ghost use Rattle.motions.specs.BasisView.{basis_of};
ghost use Rattle.motions.specs.Views.{motion_of, parts, row_of, vector_of};
ghost use Rattle.plane_lattice.specs.Bounds.{largest_entry};
ghost use Rattle.plane_lattice.specs.Coordinates.{volume};
ghost use Rattle.plane_lattice.specs.Skews.{IsFar, Skews};

use crate::dual_basis::DualBasis;
use crate::images::image;
use fractions::Part;
use motions::{MAX_COEFFICIENT, Miller, Motion3, side};

/// Whether an operation that keeps the orientation has a matrix entry above 500 in size, written in the basis.
pub(crate) fn is_skewed(ops: &[Motion3], plane: &Miller, dual: &DualBasis) -> bool
    requires operations { All IsSmall (map motion_of ops.now) }
    requires volume { pos 1 ≤ℤ volume (basis_of dual.now.basis) }
    ensures { IsTrue result
        ↔ ((m : Motion) × Contains (map motion_of ops.now) m
        × Skews (row_of plane.now) (basis_of dual.now.basis) m) }
{
    for m in ops {
        if skews(m, plane, dual) {
            return true;
        }
    }
    false
}

/// Whether the operation keeps the orientation and has such a matrix entry.
fn skews(m: &Motion3, plane: &Miller, dual: &DualBasis) -> bool
    requires motion { IsSmall (motion_of m.now) }
    requires volume { pos 1 ≤ℤ volume (basis_of dual.now.basis) }
    ensures { IsTrue result ↔ Skews (row_of plane.now) (basis_of dual.now.basis) (motion_of m.now) }
{
    side(m, plane).is_some() && turns_far(m, dual)
}

/// Whether the operation takes a, b or tau to a combination with a coefficient above 500 in size.
pub fn turns_far(m: &Motion3, dual: &DualBasis) -> bool
    requires motion { IsSmall (motion_of m.now) }
    requires volume { pos 1 ≤ℤ volume (basis_of dual.now.basis) }
    ensures { IsTrue result
        ↔ (IsFar (basis_of dual.now.basis) (image (motion_of m.now).matrix
        (basis_of dual.now.basis).a)
        ⊎ (IsFar (basis_of dual.now.basis) (image (motion_of m.now).matrix
        (basis_of dual.now.basis).b)
        ⊎ IsFar (basis_of dual.now.basis) (image (motion_of m.now).matrix
        (basis_of dual.now.basis).tau))) }
{
    is_far(dual, m, &dual.basis.a)
        || is_far(dual, m, &dual.basis.b)
        || is_far(dual, m, &dual.basis.tau)
}

/// Whether the image of a vector is a combination with a coefficient above 500 in size.
fn is_far(dual: &DualBasis, m: &Motion3, v: &[Part; 3]) -> bool
    requires motion { IsSmall (motion_of m.now) }
    requires vector { IsVectorWithin largest_entry (parts v.now) }
    requires volume { pos 1 ≤ℤ volume (basis_of dual.now.basis) }
    ensures { IsTrue result
        ↔ IsFar (basis_of dual.now.basis) (image (motion_of m.now).matrix (parts v.now)) }
{
    match dual.coordinates(&image(m, v)) {
        Some(c) => !are_within(&c),
        None => false,
    }
}

/// Whether three coefficients are at most 500 in size.
fn are_within(c: &[i128; 3]) -> bool
    ensures { IsTrue result ↔ IsVectorWithin 500 (vector_of c.now) }
{
    c[0].unsigned_abs() <= MAX_COEFFICIENT
        && c[1].unsigned_abs() <= MAX_COEFFICIENT
        && c[2].unsigned_abs() <= MAX_COEFFICIENT
}
