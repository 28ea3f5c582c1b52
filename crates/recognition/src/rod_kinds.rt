// Which types a section can be carried onto at all: what a change of basis keeps of each motion.
ghost use Rattle.std.specs.Prelude.{◌≡◌, ◌↔◌, All, Any, IsTrue};
ghost use Rattle.motions.specs.PlaneSizes.{IsMatrix2Within};
ghost use Rattle.motions.specs.PlaneViews.{matrix2_of};
ghost use Rattle.motions.specs.RodMotions.{rod_of};
ghost use Rattle.recognition.specs.RodKinds.{IsKin, trace2};
ghost use Rattle.recognition.specs.RodTests.{IsSmallRod};

use crate::rod_matrices::determinant;
use motions::RodMotion;

/// The trace of a matrix.
fn trace(a: &[[i64; 2]; 2]) -> i64
    requires { IsMatrix2Within 500 (matrix2_of a.now) }
    ensures { result ≡ trace2 (matrix2_of a.now) }
{
    a[0][0] + a[1][1]
}

/// Whether the motions have one sign, one trace and one determinant.
fn is_kin(m: &RodMotion, n: &RodMotion) -> bool
    requires m { IsSmallRod m.now }
    requires n { IsSmallRod n.now }
    ensures { IsTrue result ↔ IsKin (rod_of m.now) (rod_of n.now) }
{
    if m.e != n.e {
        return false;
    }
    let first = trace(&m.a);
    if first != trace(&n.a) {
        return false;
    }
    let first = determinant(&m.a);
    first == determinant(&n.a)
}

/// Whether a motion has its kin in a list.
fn has_kin(m: &RodMotion, list: &[RodMotion]) -> bool
    requires m { IsSmallRod m.now }
    requires list { All IsSmallRod list.now }
    ensures { IsTrue result ↔ Any (λ n. IsKin (rod_of m.now) (rod_of n)) list.now }
{
    list.iter().any(|n| is_kin(m, n))
}

/// Whether all motions of a list have their kin in another.
pub(crate) fn all_have_kin(list: &[RodMotion], other: &[RodMotion]) -> bool
    requires list { All IsSmallRod list.now }
    requires other { All IsSmallRod other.now }
    ensures { IsTrue result ↔ All (λ m. Any (λ n. IsKin (rod_of m) (rod_of n)) other.now) list.now }
{
    list.iter().all(|m| has_kin(m, other))
}
