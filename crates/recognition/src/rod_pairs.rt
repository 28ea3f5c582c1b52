// Whether two motions are one after a change, and whether each motion of a list has one in another.
ghost use Rattle.std.specs.Prelude.{◌≡◌, ◌↔◌, ◌<◌, ◌^◌, ◌*ℤ◌, ◌-ℤ◌, All, Any, IsTrue};
ghost use Rattle.motions.specs.PlaneSizes.{IsMatrix2Within};
ghost use Rattle.motions.specs.PlaneViews.{matrix2_of};
ghost use Rattle.motions.specs.Rationals.{IsMultiple};
ghost use Rattle.motions.specs.RodMotions.{IsRodSmall, rod_of};
ghost use Rattle.recognition.specs.RodChanges.{Carries};
ghost use Rattle.recognition.specs.RodTests.{IsClose, IsLike, IsPaired, IsSmallRod};
ghost use Rattle.recognition.specs.declared.found_rod.TheConstants.{ROD_GRID};
ghost use Rattle.fractions.specs.declared.part.TheConstants.{UNIT};
ghost use Rattle.integers.specs.Size.{IsWithin};

use crate::found_rod::ROD_GRID;
use crate::rod_matrices::{determinant, hand, is_product, product};
use fractions::UNIT;
use motions::RodMotion;

/// How many parts of the grid the axis has, each of them a part of a part.
const AXIS: u64 = (ROD_GRID * UNIT) as u64;

/// Whether the motions have one sign and, after the change, one matrix.
pub(crate) fn is_like(p: &[[i64; 2]; 2], m: &RodMotion, n: &RodMotion) -> bool
    requires p { IsMatrix2Within 2 (matrix2_of p.now) }
    requires m { IsSmallRod m.now }
    requires n { IsSmallRod n.now }
    ensures { IsTrue result ↔ IsLike (matrix2_of p.now) (rod_of m.now) (rod_of n.now) }
{
    if m.e != n.e {
        return false;
    }
    is_product(p, &n.a, &product(&m.a, p))
}

/// What is left of the translation t of a motion with the sign e, where the type has the translation u and the change
/// turns the axis by n and has the origin z: t - n u - (z - e z), in parts of the grid.
fn rest(n: i64, e: i64, z: i64, t: i64, u: i64) -> i64
    requires n { IsWithin 1 n }
    requires e { IsWithin 1 e }
    requires z { IsWithin 96 z }
    requires t { IsWithin (2 ^ 40) t }
    requires u { IsWithin (2 ^ 40) u }
    ensures { result ≡ ROD_GRID *ℤ (t -ℤ n *ℤ u) -ℤ UNIT *ℤ (z -ℤ e *ℤ z) }
{
    ROD_GRID * (t - n * u) - UNIT * (z - e * z)
}

/// Whether a number of parts of the grid is a whole multiple of the axis.
fn is_whole(z: i64) -> bool
    ensures { IsTrue result ↔ IsMultiple (ROD_GRID *ℤ UNIT) z }
{
    z.unsigned_abs() % AXIS == 0
}

/// Whether the translations agree up to a whole multiple of the axis.
pub(crate) fn is_close(p: &[[i64; 2]; 2], z: u32, m: &RodMotion, n: &RodMotion) -> bool
    requires p { IsMatrix2Within 2 (matrix2_of p.now) }
    requires z { z < 96 }
    requires m { IsSmallRod m.now }
    requires n { IsSmallRod n.now }
    ensures { IsTrue result ↔ IsClose (matrix2_of p.now) z (rod_of m.now) (rod_of n.now) }
{
    is_whole(rest(hand(p), m.e.value(), i64::from(z), m.t, n.t))
}

/// Whether the motions are one, after the change.
fn is_paired(p: &[[i64; 2]; 2], z: u32, m: &RodMotion, n: &RodMotion) -> bool
    requires p { IsMatrix2Within 2 (matrix2_of p.now) }
    requires z { z < 96 }
    requires m { IsSmallRod m.now }
    requires n { IsSmallRod n.now }
    ensures { IsTrue result ↔ IsPaired (matrix2_of p.now) z (rod_of m.now) (rod_of n.now) }
{
    if !is_like(p, m, n) {
        return false;
    }
    is_close(p, z, m, n)
}

/// Whether a motion of the section has one of the type.
fn has_like(p: &[[i64; 2]; 2], z: u32, m: &RodMotion, ops: &[RodMotion]) -> bool
    requires p { IsMatrix2Within 2 (matrix2_of p.now) }
    requires z { z < 96 }
    requires m { IsSmallRod m.now }
    requires ops { All IsSmallRod ops.now }
    ensures { IsTrue result
        ↔ Any (λ n. IsPaired (matrix2_of p.now) z (rod_of m.now) (rod_of n)) ops.now }
{
    ops.iter().any(|n| is_paired(p, z, m, n))
}

/// Whether a motion of the type has one of the section.
fn has_source(p: &[[i64; 2]; 2], z: u32, n: &RodMotion, section: &[RodMotion]) -> bool
    requires p { IsMatrix2Within 2 (matrix2_of p.now) }
    requires z { z < 96 }
    requires n { IsSmallRod n.now }
    requires section { All IsSmallRod section.now }
    ensures { IsTrue result
        ↔ Any (λ m. IsPaired (matrix2_of p.now) z (rod_of m) (rod_of n.now)) section.now }
{
    section.iter().any(|m| is_paired(p, z, m, n))
}

/// Whether all motions of the section have one of the type.
fn all_have_like(p: &[[i64; 2]; 2], z: u32, section: &[RodMotion], ops: &[RodMotion]) -> bool
    requires p { IsMatrix2Within 2 (matrix2_of p.now) }
    requires z { z < 96 }
    requires section { All IsSmallRod section.now }
    requires ops { All IsSmallRod ops.now }
    ensures { IsTrue result ↔ All
        (λ m. Any (λ n. IsPaired (matrix2_of p.now) z (rod_of m) (rod_of n)) ops.now) section.now }
{
    section.iter().all(|m| has_like(p, z, m, ops))
}

/// Whether all motions of the type have one of the section.
fn all_have_source(p: &[[i64; 2]; 2], z: u32, section: &[RodMotion], ops: &[RodMotion]) -> bool
    requires p { IsMatrix2Within 2 (matrix2_of p.now) }
    requires z { z < 96 }
    requires section { All IsSmallRod section.now }
    requires ops { All IsSmallRod ops.now }
    ensures { IsTrue result ↔ All
        (λ n. Any (λ m. IsPaired (matrix2_of p.now) z (rod_of m) (rod_of n)) section.now) ops.now }
{
    ops.iter().all(|n| has_source(p, z, n, section))
}

/// Whether the change carries the section onto the type with these operations.
pub fn carries(section: &[RodMotion], ops: &[RodMotion], p: &[[i64; 2]; 2], z: u32) -> bool
    requires section { All IsSmallRod section.now }
    requires ops { All IsSmallRod ops.now }
    requires p { IsMatrix2Within 2 (matrix2_of p.now) }
    requires z { z < 96 }
    ensures { IsTrue result ↔ Carries section.now ops.now (matrix2_of p.now) z }
{
    if determinant(p) == 0 {
        return false;
    }
    if !all_have_like(p, z, section, ops) {
        return false;
    }
    all_have_source(p, z, section, ops)
}
