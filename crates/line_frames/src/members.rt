// Translations from one line to another.
ghost use Rattle.std.specs.Prelude.{◌≡◌, ◌≢◌, ◌*◌, ◌*ℤ◌, ◌^◌, ◌≤ℤ◌, ℤ, pos, MatchOption, unsigned_abs};
ghost use Rattle.fractions.specs.declared.part.TheConstants.{UNIT};
ghost use Rattle.integers.specs.Size.{IsWithin};
ghost use Rattle.symmetry.specs.Sizes.{IsVectorWithin};
ghost use Rattle.symmetry.specs.Vectors.{Vector, dot};
ghost use Rattle.motions.specs.Views.{parts, row_of};
ghost use Rattle.motions.specs.declared.miller.TheConstants.{INDEX};
ghost use Rattle.closure.specs.Groups.{group_listing};
ghost use Rattle.plane_lattice.specs.Bounds.{largest_entry};
ghost use Rattle.line_frames.specs.Searches.{coordinate, IsAt, IsFirstAbove, IsForwardAlong, IsPointAt, IsReducedAt};

use closure::Group;
use fractions::{Part, UNIT, whole_quotient};
use motions::Miller;

/// The quotient of two numbers, where it is a whole number. None comes exactly where it is not.
fn quotient(num: i64, den: i64) -> Option<i64>
    requires den { den ≢ pos 0 }
    requires small { IsWithin (2 ^ 32) num }
    requires den_small { IsWithin (2 ^ 32) den }
    ensures { MatchOption result ((q : ℤ) → ¬ (den *ℤ q ≡ num)) (λ q. den *ℤ q ≡ num) }
{
    if den < 0 {
        return quotient_by_positive(-num, -den);
    }
    quotient_by_positive(num, den)
}

/// The same, by a positive number.
fn quotient_by_positive(num: i64, den: i64) -> Option<i64>
    requires den { pos 1 ≤ℤ den }
    requires small { IsWithin (2 ^ 32) num }
    requires den_small { IsWithin (2 ^ 32) den }
    ensures { MatchOption result ((q : ℤ) → ¬ (den *ℤ q ≡ num)) (λ q. den *ℤ q ≡ num) }
{
    let quotient = whole_quotient(num as i128, den as i128)?;
    Some(quotient as i64)
}

/// The first coordinate in which (k, -h) is not 0.
fn coordinate(plane: &Miller, v: &[Part; 3]) -> i64
    ensures { result ≡ coordinate (row_of plane.now) (parts v.now) }
{
    if plane.k == 0 { v[1].0 } else { v[0].0 }
}

/// The number (hk).v of parts.
#[tactic(auto, unfolding(symmetry::specs::Vectors::dot))]
pub(crate) fn height_of(plane: &Miller, v: &[Part; 3]) -> Part
    requires line { plane.now.l ≡ pos 0 }
    requires vector { IsVectorWithin largest_entry (parts v.now) }
    ensures { result.0 ≡ dot (row_of plane.now) (parts v.now) }
{
    Part(plane.h * v[0].0 + plane.k * v[1].0)
}

/// The vector of the plane at the height d with the coordinate t. None comes exactly where there is none.
fn point_at(plane: &Miller, t: i64, d: i64) -> Option<[Part; 3]>
    requires line { plane.now.l ≡ pos 0 }
    requires t { IsWithin (unsigned_abs UNIT * unsigned_abs INDEX) t }
    requires d { IsWithin (unsigned_abs UNIT) d }
    ensures { MatchOption result ((v : Vector) → ¬ IsPointAt (row_of plane.now) t d v)
        (λ v. IsPointAt (row_of plane.now) t d (parts v)) }
{
    if plane.k == 0 {
        // The index h is 1 or -1.
        return Some([Part(d * plane.h), Part(t), Part(0)]);
    }
    let y = quotient(d - plane.h * t, plane.k)?;
    Some([Part(t), Part(y), Part(0)])
}

/// The translation of the plane at the height d with the coordinate t. None comes exactly where there is none.
fn member_with(group: &Group, plane: &Miller, t: i64, d: i64) -> Option<[Part; 3]>
    requires line { plane.now.l ≡ pos 0 }
    requires t { IsWithin (unsigned_abs UNIT * unsigned_abs INDEX) t }
    requires d { IsWithin (unsigned_abs UNIT) d }
    ensures { MatchOption result
        ((v : Vector) → IsAt (group_listing group.now) (row_of plane.now) d v →
        ¬ coordinate (row_of plane.now) v ≡ t)
        (λ v. IsAt (group_listing group.now) (row_of plane.now) d (parts v)
        × (coordinate (row_of plane.now) (parts v) ≡ t)) }
{
    let v = point_at(plane, t, d)?;
    if group.has(v) { Some(v) } else { None }
}

/// The translation of the plane at the height d that is reduced along a. None comes exactly where no translation has
/// this height.
fn member_at(group: &Group, plane: &Miller, a: &[Part; 3], d: i64) -> Option<[Part; 3]>
    requires line { plane.now.l ≡ pos 0 }
    requires a { IsForwardAlong (group_listing group.now) (row_of plane.now) (parts a.now) }
    requires d { IsWithin (unsigned_abs UNIT) d }
    ensures { MatchOption result
        ((v : Vector) → ¬ IsAt (group_listing group.now) (row_of plane.now) d v)
        (λ v. IsReducedAt (group_listing group.now) (row_of plane.now) (parts a.now) d (parts v)) }
{
    for t in 0..coordinate(plane, a) {
        if let Some(v) = member_with(group, plane, t, d) {
            return Some(v);
        }
    }
    None
}

/// The translation to the first line above that is reduced along a.
pub(crate) fn first_above(group: &Group, plane: &Miller, a: &[Part; 3]) -> [Part; 3]
    requires line { plane.now.l ≡ pos 0 }
    requires a { IsForwardAlong (group_listing group.now) (row_of plane.now) (parts a.now) }
    ensures { IsFirstAbove (group_listing group.now) (row_of plane.now) (parts a.now)
        (parts result) }
{
    for d in 1..UNIT {
        if let Some(tau) = member_at(group, plane, a, d) {
            return tau;
        }
    }
    // The edges of the cell have this height, some of them together.
    match member_at(group, plane, a, UNIT) {
        Some(tau) => tau,
        None => unreachable!(),
    }
}
