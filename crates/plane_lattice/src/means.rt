// The vector c', the mean over the scanning operations.
ghost use Rattle.std.specs.Prelude.{◌≡◌, ◌≤◌, ◌<◌, ◌*ℤ◌, ℤ, pos, All, length, map, if◌then◌else◌};
ghost use Rattle.integers.specs.Size.{IsWithin};
ghost use Rattle.fractions.specs.Fraction.{SameFraction};
ghost use Rattle.fractions.specs.FractionOf.{fraction_of};
ghost use Rattle.symmetry.specs.Frames.{mean_of, sign_at, total_up};
ghost use Rattle.symmetry.specs.Sizes.{IsSmall, IsVectorWithin};
ghost use Rattle.symmetry.specs.Vectors.{image, minus, multiple, plus};
ghost use Rattle.motions.specs.Views.{motion_of, parts, row_of};
ghost use Rattle.fractions.specs.declared.part.TheConstants.{UNIT};
ghost use Rattle.plane_lattice.specs.Bounds.{largest_entry, largest_total, largest_turned};
ghost use Rattle.plane_lattice.specs.Scanning.{keeps_orientation, IsPointOf, scanning_ops};

use crate::images::image;
use fractions::{Part, Ratio, UNIT};
use motions::{Miller, Motion3, Sign, side};

/// The mean of the vectors e W tau over the scanning operations, of which there is one at least.
pub(crate) fn mean(ops: &[Motion3], plane: &Miller, tau: &[Part; 3]) -> [Ratio; 3]
    requires operations { All IsSmall (map motion_of ops.now) }
    requires few { length ops.now ≤ 192 }
    requires some { 0 < length (scanning_ops (row_of plane.now) (map motion_of ops.now)) }
    requires tau { IsVectorWithin largest_entry (parts tau.now) }
    ensures { IsPointOf (mean_of (row_of plane.now) (parts tau.now)
        (scanning_ops (row_of plane.now) (map motion_of ops.now))) result }
{
    let total = total_up(ops, plane, tau);
    let count = count_scanning(ops, plane);
    [
        part_of(total[0], count),
        part_of(total[1], count),
        part_of(total[2], count),
    ]
}

/// The number of parts divided among so many, in cell edges.
fn part_of(part: Part, count: usize) -> Ratio
    requires part { IsWithin largest_total part.0 }
    requires some { 0 < count }
    requires few { count ≤ 192 }
    ensures { SameFraction (fraction_of result) (record { num = part.0; den = UNIT *ℤ pos count }) }
{
    match Ratio::make(part.0 as i128, UNIT as i128 * count as i128) {
        Some(ratio) => ratio,
        None => unreachable!(),
    }
}

/// The sum of the vectors e W tau over the scanning operations.
fn total_up(ops: &[Motion3], plane: &Miller, tau: &[Part; 3]) -> [Part; 3]
    requires operations { All IsSmall (map motion_of ops.now) }
    requires few { length ops.now ≤ 192 }
    requires tau { IsVectorWithin largest_entry (parts tau.now) }
    ensures is { parts result
        ≡ total_up (row_of plane.now) (parts tau.now)
        (scanning_ops (row_of plane.now) (map motion_of ops.now)) }
    ensures small { IsVectorWithin largest_total (parts result) }
{
    let mut total = [Part(0), Part(0), Part(0)];
    for m in ops {
        total = with_operation(&total, m, plane, tau);
    }
    total
}

/// The sum with e W tau, where the operation keeps the orientation.
fn with_operation(total: &[Part; 3], m: &Motion3, plane: &Miller, tau: &[Part; 3]) -> [Part; 3]
    requires total { IsVectorWithin largest_total (parts total.now) }
    requires motion { IsSmall (motion_of m.now) }
    requires tau { IsVectorWithin largest_entry (parts tau.now) }
    ensures { parts result ≡ (if keeps_orientation (row_of plane.now) (motion_of m.now)
        then plus (parts total.now) (multiple (sign_at (row_of plane.now) (motion_of m.now))
        (image (motion_of m.now).matrix (parts tau.now)))
        else parts total.now) }
{
    match side(m, plane) {
        Some(Sign::Plus) => sum(total, &image(m, tau)),
        Some(Sign::Minus) => difference(total, &image(m, tau)),
        None => *total,
    }
}

/// The sum of two vectors.
#[tactic(auto, unfolding(symmetry::specs::Vectors::plus))]
fn sum(v: &[Part; 3], w: &[Part; 3]) -> [Part; 3]
    requires first { IsVectorWithin largest_total (parts v.now) }
    requires second { IsVectorWithin largest_turned (parts w.now) }
    ensures { parts result ≡ plus (parts v.now) (parts w.now) }
{
    [v[0].add(w[0]), v[1].add(w[1]), v[2].add(w[2])]
}

/// The difference of two vectors.
#[tactic(auto, unfolding(symmetry::specs::Vectors::plus, symmetry::specs::Vectors::multiple))]
fn difference(v: &[Part; 3], w: &[Part; 3]) -> [Part; 3]
    requires first { IsVectorWithin largest_total (parts v.now) }
    requires second { IsVectorWithin largest_turned (parts w.now) }
    ensures { parts result ≡ minus (parts v.now) (parts w.now) }
{
    [v[0].sub(w[0]), v[1].sub(w[1]), v[2].sub(w[2])]
}

/// How many operations keep the orientation.
fn count_scanning(ops: &[Motion3], plane: &Miller) -> usize
    requires { All IsSmall (map motion_of ops.now) }
    ensures is { result ≡ length (scanning_ops (row_of plane.now) (map motion_of ops.now)) }
    ensures few { result ≤ length ops.now }
{
    let mut count = 0;
    for m in ops {
        if side(m, plane).is_some() {
            count += 1;
        }
    }
    count
}
