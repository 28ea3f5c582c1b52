// Right-handed bases.
ghost use Rattle.std.specs.Prelude.{◌≡◌, ◌-ℤ◌, ◌*ℤ◌, ◌≤ℤ◌, pos};
ghost use Rattle.integers.specs.Size.{IsWithin};
ghost use Rattle.symmetry.specs.Groups.{Listing};
ghost use Rattle.symmetry.specs.Sizes.{IsVectorWithin};
ghost use Rattle.symmetry.specs.Vectors.{Matrix, Vector, cross, dot};
ghost use Rattle.motions.specs.Views.{row_of, vector_of};
ghost use Rattle.reduction.specs.BasisView.{vectors_of};
ghost use Rattle.reduction.specs.Bounds.{largest_minor, largest_short};
ghost use Rattle.reduction.specs.Forms.{by_form};
ghost use Rattle.reduction.specs.LatticeBases.{IsAdapted};
ghost use Rattle.reduction.specs.Reduced.{IsReduced};

use crate::lattice_basis::LatticeBasis;
use crate::shorten::opposite;
use motions::Miller;

/// The basis, with the opposite of b where a, b and (hkl) are left-handed.
pub(crate) fn right_handed(plane: &Miller, basis: &LatticeBasis) -> LatticeBasis
    requires a { IsVectorWithin largest_short (vector_of basis.now.a) }
    requires b { IsVectorWithin largest_short (vector_of basis.now.b) }
    ensures adapted { (g : Listing) (r : Vector) → IsAdapted g r (vectors_of basis.now) →
        IsAdapted g r (vectors_of result) }
    ensures reduced { (g : Matrix) → IsReduced (by_form g) (vectors_of basis.now) →
        IsReduced (by_form g) (vectors_of result) }
    ensures oriented { pos 0
        ≤ℤ dot (row_of plane.now) (cross (vector_of result.a) (vector_of result.b)) }
{
    if handedness(plane, &basis.a, &basis.b) < 0 {
        LatticeBasis {
            a: basis.a,
            b: opposite(&basis.b),
            tau: basis.tau,
        }
    } else {
        *basis
    }
}

/// The number (hkl).(a x b), which is positive where a, b and (hkl) are right-handed.
#[tactic(auto, unfolding(symmetry::specs::Vectors::dot, symmetry::specs::Vectors::cross))]
fn handedness(plane: &Miller, a: &[i64; 3], b: &[i64; 3]) -> i128
    requires a { IsVectorWithin largest_short (vector_of a.now) }
    requires b { IsVectorWithin largest_short (vector_of b.now) }
    ensures { result ≡ dot (row_of plane.now) (cross (vector_of a.now) (vector_of b.now)) }
{
    plane.h as i128 * minor(a[1], a[2], b[1], b[2])
        + plane.k as i128 * minor(a[2], a[0], b[2], b[0])
        + plane.l as i128 * minor(a[0], a[1], b[0], b[1])
}

/// The determinant of two rows of two numbers.
fn minor(a: i64, b: i64, c: i64, d: i64) -> i128
    requires a { IsWithin largest_short a }
    requires b { IsWithin largest_short b }
    requires c { IsWithin largest_short c }
    requires d { IsWithin largest_short d }
    ensures is { result ≡ a *ℤ d -ℤ b *ℤ c }
    ensures small { IsWithin largest_minor result }
{
    a as i128 * d as i128 - b as i128 * c as i128
}
