// The least origin along the axis for a matrix.
ghost use Rattle.std.specs.Prelude.{◌≡◌, ◌<◌, All, Any, Contains, MatchOption};
ghost use Rattle.motions.specs.declared.motion.Sign.TheVariants.{Plus, Minus};
ghost use Rattle.motions.specs.PlaneSizes.{IsMatrix2Within};
ghost use Rattle.motions.specs.PlaneViews.{matrix2_of};
ghost use Rattle.motions.specs.RodMotions.{rod_of};
ghost use Rattle.recognition.specs.RodChanges.{Carries};
ghost use Rattle.recognition.specs.RodTests.{IsLike, IsSmallRod};
ghost use Rattle.recognition.specs.RodOrigins.{AreApart, IsLeastIn, IsLikeliest, IsNotIn, IsOriginOf};

use crate::found_rod::ROD_GRID;
use crate::rod_matrices::hand;
use crate::rod_pairs::{carries, is_like};
use fractions::{Part, UNIT};
use motions::{RodMotion, Sign};

/// How many points of the grid half a part has: the origin counts twice where the axis is turned.
pub(crate) const STEP: i64 = ROD_GRID / (2 * UNIT);

/// The first motion of the section that turns the axis.
fn first_turning(section: &[RodMotion]) -> Option<RodMotion>
    ensures { MatchOption result (All (λ m. (rod_of m).along ≡ Plus) section.now)
        (λ m. Contains section.now m × ((rod_of m).along ≡ Minus)) }
{
    section.iter().find(|m| m.e == Sign::Minus).copied()
}

/// The first motion of the type with the sign of a motion and, after the change, its matrix.
fn partner(p: &[[i64; 2]; 2], m: &RodMotion, ops: &[RodMotion]) -> Option<RodMotion>
    requires p { IsMatrix2Within 2 (matrix2_of p.now) }
    requires m { IsSmallRod m.now }
    requires ops { All IsSmallRod ops.now }
    ensures { MatchOption result
        (All (λ n. ¬ (IsLike (matrix2_of p.now) (rod_of m.now) (rod_of n))) ops.now)
        (λ n. Contains ops.now n × IsLike (matrix2_of p.now) (rod_of m.now) (rod_of n)) }
{
    ops.iter().find(|n| is_like(p, m, n)).copied()
}

/// The least origin at which the translations of two motions agree that turn the axis.
fn origin_of(p: &[[i64; 2]; 2], m: &RodMotion, n: &RodMotion) -> u32
    requires p { IsMatrix2Within 2 (matrix2_of p.now) }
    requires m { IsSmallRod m.now }
    requires n { IsSmallRod n.now }
    ensures { IsOriginOf (matrix2_of p.now) (rod_of m.now) (rod_of n.now) result }
{
    let rest = Part(m.t - hand(p) * n.t).reduced();
    (STEP * rest.0) as u32
}

/// The only origin that can be the least: told by the first motion that turns the axis, and 0 where there is none.
fn likely_origin(section: &[RodMotion], ops: &[RodMotion], p: &[[i64; 2]; 2]) -> Option<u32>
    requires section { All IsSmallRod section.now }
    requires ops { All IsSmallRod ops.now }
    requires apart { AreApart ops.now }
    requires p { IsMatrix2Within 2 (matrix2_of p.now) }
    ensures { MatchOption result (IsNotIn 96 (Carries section.now ops.now (matrix2_of p.now)))
        (IsLikeliest 96 (Carries section.now ops.now (matrix2_of p.now))) }
{
    match first_turning(section) {
        None => Some(0),
        Some(m) => match partner(p, &m, ops) {
            None => None,
            Some(n) => Some(origin_of(p, &m, &n)),
        },
    }
}

/// The least origin of the grid at which the change carries the section onto the type with these operations.
pub fn least_origin(section: &[RodMotion], ops: &[RodMotion], p: &[[i64; 2]; 2]) -> Option<u32>
    requires section { All IsSmallRod section.now }
    requires ops { All IsSmallRod ops.now }
    requires apart { AreApart ops.now }
    requires p { IsMatrix2Within 2 (matrix2_of p.now) }
    ensures { MatchOption result (IsNotIn 96 (Carries section.now ops.now (matrix2_of p.now)))
        (IsLeastIn 96 (Carries section.now ops.now (matrix2_of p.now))) }
{
    match likely_origin(section, ops, p) {
        None => None,
        Some(z) => {
            if carries(section, ops, p, z) {
                Some(z)
            } else {
                None
            }
        }
    }
}
