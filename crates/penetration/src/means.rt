// The vectors a' and b', made level with the mean over the rod operations.
ghost use Rattle.std.specs.Prelude.{◌≡◌, ◌*◌, ◌^◌, ◌≤◌, ◌≤ℤ◌, ◌*ℤ◌, ◌+ℤ◌, negsuc, pos, All, length, map};
ghost use Rattle.integers.specs.Size.{IsWithin};
ghost use Rattle.fractions.specs.declared.part.TheConstants.{UNIT};
ghost use Rattle.fractions.specs.Fraction.{SameFraction};
ghost use Rattle.fractions.specs.FractionOf.{fraction_of};
ghost use Rattle.symmetry.specs.Sizes.{IsSmall, IsVectorWithin};
ghost use Rattle.symmetry.specs.Vectors.{image};
ghost use Rattle.motions.specs.BasisView.{basis_of};
ghost use Rattle.motions.specs.Views.{motion_of, parts};
ghost use Rattle.plane_lattice.specs.Bounds.{largest_entry, largest_scaled};
ghost use Rattle.plane_lattice.specs.Coordinates.{volume};
ghost use Rattle.plane_lattice.specs.Scanning.{IsPointOf};
ghost use Rattle.penetration.specs.DirectionView.{direction_of};
ghost use Rattle.penetration.specs.RodFrames.{coefficient, levelled, total_along};
ghost use Rattle.penetration.specs.RodOperations.{ArePointsOf, rod_ops, signed_coefficient};

use crate::direction::Direction;
use crate::signs::{keeps_direction, sign_along};
use fractions::{Part, Ratio, UNIT};
use motions::{Motion3, Sign};
use plane_lattice::{DualBasis, image};

/// The numerator of k(W v), the coordinate of W v along the axis.
fn turned_coefficient(m: &Motion3, dual: &DualBasis, v: &[Part; 3]) -> i128
    requires motion { IsSmall (motion_of m.now) }
    requires vector { IsVectorWithin largest_entry (parts v.now) }
    ensures is { result
        ≡ (coefficient (basis_of dual.now.basis)
        (image (motion_of m.now).matrix (parts v.now))).num }
    ensures small { IsWithin largest_scaled result }
{
    let [_, _, z] = dual.scaled(&image(m, v));
    z
}

/// e times it, for a motion that keeps the direction, and 0 for any other.
fn signed_coefficient(m: &Motion3, direction: &Direction, dual: &DualBasis, v: &[Part; 3]) -> i128
    requires motion { IsSmall (motion_of m.now) }
    requires vector { IsVectorWithin largest_entry (parts v.now) }
    ensures is { result
        ≡ signed_coefficient (direction_of direction.now) (basis_of dual.now.basis)
        (motion_of m.now) (parts v.now) }
    ensures small { IsWithin largest_scaled result }
{
    match sign_along(m, direction) {
        Some(Sign::Plus) => turned_coefficient(m, dual, v),
        Some(Sign::Minus) => -turned_coefficient(m, dual, v),
        None => 0,
    }
}

/// The sum of these over a list of operations.
fn rod_total(ops: &[Motion3], direction: &Direction, dual: &DualBasis, v: &[Part; 3]) -> i128
    requires operations { All IsSmall (map motion_of ops.now) }
    requires few { length ops.now ≤ 192 }
    requires vector { IsVectorWithin largest_entry (parts v.now) }
    ensures is { result
        ≡ total_along (direction_of direction.now) (basis_of dual.now.basis)
        (rod_ops (direction_of direction.now) (map motion_of ops.now)) (parts v.now) }
    ensures small { IsWithin (192 * largest_scaled) result }
{
    let mut total = 0;
    for m in ops {
        total += signed_coefficient(m, direction, dual, v);
    }
    total
}

/// How many operations keep the direction.
fn count_rods(ops: &[Motion3], direction: &Direction) -> usize
    requires { All IsSmall (map motion_of ops.now) }
    ensures is { result ≡ length (rod_ops (direction_of direction.now) (map motion_of ops.now)) }
    ensures few { result ≤ length ops.now }
{
    let mut count = 0;
    for m in ops {
        if keeps_direction(m, direction) {
            count += 1;
        }
    }
    count
}

/// A multiple of a number of parts.
fn wide_multiple(x: i128, part: Part) -> i128
    requires x { IsWithin (192 * largest_scaled) x }
    requires part { IsWithin largest_entry part.0 }
    ensures is { result ≡ x *ℤ part.0 }
    ensures small { IsWithin (192 * largest_scaled * largest_entry) result }
{
    x * part.0 as i128
}

/// The fraction.
fn ratio_of(num: i128, den: i128) -> Ratio
    requires num { IsWithin (2 ^ 120) num }
    requires den { IsWithin (2 ^ 120) den }
    requires positive { pos 1 ≤ℤ den }
    ensures { SameFraction (fraction_of result) (record { num = num; den = den }) }
{
    match Ratio::make(num, den) {
        Some(ratio) => ratio,
        None => unreachable!(),
    }
}

/// An entry of a vector without the mean of its coordinate along the axis, in cell edges: v - (total / den) c.
fn level_entry(den: i128, total: i128, v: Part, axis: Part) -> Ratio
    requires den { IsWithin (192 * largest_scaled) den }
    requires positive { pos 1 ≤ℤ den }
    requires total { IsWithin (192 * largest_scaled) total }
    requires v { IsWithin largest_entry v.0 }
    requires axis { IsWithin largest_entry axis.0 }
    ensures { SameFraction (fraction_of result)
        (record { num = den *ℤ v.0 +ℤ negsuc 0 *ℤ (total *ℤ axis.0); den = UNIT *ℤ den }) }
{
    let num = wide_multiple(den, v) - wide_multiple(total, axis);
    ratio_of(num, UNIT as i128 * den)
}

/// The number below of the mean: the number of rod operations times the volume.
fn denominator(count: usize, volume: i128) -> i128
    requires count { count ≤ 192 }
    requires some { 1 ≤ count }
    requires volume { IsWithin largest_scaled volume }
    requires positive { pos 1 ≤ℤ volume }
    ensures is { result ≡ pos count *ℤ volume }
    ensures positive { pos 1 ≤ℤ result }
    ensures small { IsWithin (192 * largest_scaled) result }
{
    count as i128 * volume
}

/// A vector v without the mean of its coordinate along the axis, in cell edges.
fn levelled(ops: &[Motion3], direction: &Direction, dual: &DualBasis, v: &[Part; 3]) -> [Ratio; 3]
    requires operations { All IsSmall (map motion_of ops.now) }
    requires few { length ops.now ≤ 192 }
    requires some { 1 ≤ length (rod_ops (direction_of direction.now) (map motion_of ops.now)) }
    requires volume { pos 1 ≤ℤ volume (basis_of dual.now.basis) }
    requires vector { IsVectorWithin largest_entry (parts v.now) }
    ensures { IsPointOf (levelled (direction_of direction.now) (basis_of dual.now.basis)
        (rod_ops (direction_of direction.now) (map motion_of ops.now)) (parts v.now)) result }
{
    let den = denominator(count_rods(ops, direction), dual.volume);
    let total = rod_total(ops, direction, dual, v);
    let axis = dual.basis.tau;
    [
        level_entry(den, total, v[0], axis[0]),
        level_entry(den, total, v[1], axis[1]),
        level_entry(den, total, v[2], axis[2]),
    ]
}

/// The vectors a' and b'.
pub(crate) fn across(ops: &[Motion3], direction: &Direction, dual: &DualBasis) -> [[Ratio; 3]; 2]
    requires operations { All IsSmall (map motion_of ops.now) }
    requires few { length ops.now ≤ 192 }
    requires some { 1 ≤ length (rod_ops (direction_of direction.now) (map motion_of ops.now)) }
    requires volume { pos 1 ≤ℤ volume (basis_of dual.now.basis) }
    ensures { ArePointsOf (levelled (direction_of direction.now) (basis_of dual.now.basis)
        (rod_ops (direction_of direction.now) (map motion_of ops.now)) (basis_of dual.now.basis).a)
        (levelled (direction_of direction.now) (basis_of dual.now.basis)
        (rod_ops (direction_of direction.now) (map motion_of ops.now)) (basis_of dual.now.basis).b)
        result }
{
    [
        levelled(ops, direction, dual, &dual.basis.a),
        levelled(ops, direction, dual, &dual.basis.b),
    ]
}
