// A basis of the lattice of which two vectors lie in the planes.
ghost use Rattle.std.specs.Prelude.{◌≡◌, ℕ, ◌+◌, ◌*◌, ◌+ℤ◌, ◌-ℤ◌, ◌*ℤ◌, pos};
ghost use Rattle.integers.specs.Size.{IsWithin};
ghost use Rattle.motions.specs.Views.{row_of, vector_of};
ghost use Rattle.symmetry.specs.Sizes.{IsVectorWithin};
ghost use Rattle.symmetry.specs.Vectors.{dot};
ghost use Rattle.closure.specs.Groups.{group_listing};
ghost use Rattle.reduction.specs.Bounds.{largest_first, largest_once, largest_twice, largest_value};
ghost use Rattle.reduction.specs.LatticeBases.{combined, IsAdapted};
ghost use Rattle.reduction.specs.Bezout.{IsSmallBezout};
ghost use Rattle.reduction.specs.BasisView.{vectors_of};

use crate::bezout::{BezoutIdentity, bezout_of};
use crate::lattice_basis::{LatticeBasis, triangular_basis};
use closure::Group;
use motions::Miller;

/// The number (hkl).v.
#[tactic(auto, unfolding(symmetry::specs::Vectors::dot))]
fn height_of(plane: &Miller, v: &[i64; 3]) -> i64
    requires { IsVectorWithin largest_first (vector_of v.now) }
    ensures is { result ≡ dot (row_of plane.now) (vector_of v.now) }
    ensures small { IsWithin largest_value result }
{
    plane.h * v[0] + plane.k * v[1] + plane.l * v[2]
}

/// One entry of x u + y v.
fn entry(x: i64, u: i64, y: i64, v: i64) -> i64
    requires x { IsWithin largest_value x }
    requires u { IsWithin largest_once u }
    requires y { IsWithin largest_value y }
    requires v { IsWithin largest_once v }
    ensures is { result ≡ x *ℤ u +ℤ y *ℤ v }
    ensures small { IsWithin largest_twice result }
{
    x * u + y * v
}

/// Where (hkl).u and (hkl).v are p and q times their divisor: q u - p v, which lies in the planes.
fn in_plane(m: &BezoutIdentity, u: &[i64; 3], v: &[i64; 3]) -> [i64; 3]
    requires numbers { IsSmallBezout m.now }
    requires u { IsVectorWithin largest_once (vector_of u.now) }
    requires v { IsVectorWithin largest_once (vector_of v.now) }
    ensures is { vector_of result
        ≡ combined m.now.q (vector_of u.now) (pos 0 -ℤ m.now.p) (vector_of v.now) }
{
    let p = -m.p;
    [
        entry(m.q, u[0], p, v[0]),
        entry(m.q, u[1], p, v[1]),
        entry(m.q, u[2], p, v[2]),
    ]
}

/// And x u + y v, which lies above them: its height is the divisor.
fn above_plane(m: &BezoutIdentity, u: &[i64; 3], v: &[i64; 3]) -> [i64; 3]
    requires numbers { IsSmallBezout m.now }
    requires u { IsVectorWithin largest_once (vector_of u.now) }
    requires v { IsVectorWithin largest_once (vector_of v.now) }
    ensures is { vector_of result ≡ combined m.now.x (vector_of u.now) m.now.y (vector_of v.now) }
{
    [
        entry(m.x, u[0], m.y, v[0]),
        entry(m.x, u[1], m.y, v[1]),
        entry(m.x, u[2], m.y, v[2]),
    ]
}

/// A basis of the lattice of the group, with a and b in the planes and tau above them.
pub(crate) fn adapted_basis(group: &Group, plane: &Miller) -> LatticeBasis
    ensures adapted { IsAdapted (group_listing group.now) (row_of plane.now) (vectors_of result) }
    ensures a { IsVectorWithin largest_once (vector_of result.a) }
    ensures b { IsVectorWithin largest_twice (vector_of result.b) }
    ensures tau { IsVectorWithin largest_twice (vector_of result.tau) }
{
    let first = triangular_basis(group);
    let m = bezout_of(height_of(plane, &first.a), height_of(plane, &first.b));
    let a = in_plane(&m, &first.a, &first.b);
    let above = above_plane(&m, &first.a, &first.b);
    let n = bezout_of(m.divisor, height_of(plane, &first.tau));
    let b = in_plane(&n, &above, &first.tau);
    let tau = above_plane(&n, &above, &first.tau);
    LatticeBasis { a, b, tau }
}
