// The vector c', the mean of e W tau over the scanning operations.
ghost use Rattle.std.specs.Prelude.{◌≡◌, ◌↔◌, ◌+ℤ◌, ◌*ℤ◌, pos, All, IfSome, IsTrue, MatchOption, map};
ghost use Rattle.fractions.specs.Fraction.{SameFraction};
ghost use Rattle.fractions.specs.FractionOf.{fraction_of};
ghost use Rattle.fractions.specs.declared.part.TheConstants.{UNIT};
ghost use Rattle.integers.specs.Size.{IsWithin};
ghost use Rattle.symmetry.specs.Frames.{KeepsOrientation, sign_at};
ghost use Rattle.symmetry.specs.Sizes.{IsSmall, IsVectorWithin};
ghost use Rattle.symmetry.specs.Vectors.{image, multiple, opposite};
ghost use Rattle.motions.specs.Views.{motion_of, parts, row_of};
ghost use Rattle.plane_lattice.specs.Bounds.{largest_entry, largest_turned};
ghost use Rattle.line_frames.specs.Searches.{IsMeanUp, IsOtherUp};

use fractions::{Part, Ratio, UNIT};
use motions::{Miller, Motion3, Sign, side};
use plane_lattice::image;

/// The vector e W tau of an operation. None comes exactly where it does not keep the orientation.
fn up_by(m: &Motion3, plane: &Miller, tau: &[Part; 3]) -> Option<[Part; 3]>
    requires motion { IsSmall (motion_of m.now) }
    requires tau { IsVectorWithin largest_entry (parts tau.now) }
    ensures is { MatchOption result (¬ KeepsOrientation (row_of plane.now) (motion_of m.now))
        (λ up. KeepsOrientation (row_of plane.now) (motion_of m.now)
        × (parts up ≡ multiple (sign_at (row_of plane.now) (motion_of m.now))
        (image (motion_of m.now).matrix (parts tau.now)))) }
    ensures small { IfSome result (λ up. IsVectorWithin largest_turned (parts up)) }
{
    let turned = image(m, tau);
    match side(m, plane)? {
        Sign::Plus => Some(turned),
        Sign::Minus => Some(opposite(&turned)),
    }
}

/// The vector with each sign changed.
#[tactic(auto, unfolding(symmetry::specs::Vectors::multiple))]
fn opposite(v: &[Part; 3]) -> [Part; 3]
    requires { IsVectorWithin largest_turned (parts v.now) }
    ensures is { parts result ≡ opposite (parts v.now) }
    ensures small { IsVectorWithin largest_turned (parts result) }
{
    [Part(-v[0].0), Part(-v[1].0), Part(-v[2].0)]
}

/// Whether two vectors are equal.
fn is_same(v: &[Part; 3], w: &[Part; 3]) -> bool
    ensures { IsTrue result ↔ (parts v.now ≡ parts w.now) }
{
    v[0] == w[0] && v[1] == w[1] && v[2] == w[2]
}

/// The first vector e W tau that is not tau; tau, where there is none.
fn other_up(ops: &[Motion3], plane: &Miller, tau: &[Part; 3]) -> [Part; 3]
    requires operations { All IsSmall (map motion_of ops.now) }
    requires tau { IsVectorWithin largest_entry (parts tau.now) }
    ensures is { IsOtherUp (row_of plane.now) (parts tau.now) (map motion_of ops.now)
        (parts result) }
    ensures small { IsVectorWithin largest_turned (parts result) }
{
    for m in ops {
        if let Some(up) = up_by(m, plane, tau) {
            if !is_same(&up, tau) {
                return up;
            }
        }
    }
    *tau
}

/// The mean of two numbers of parts, in cell edges.
fn mean_of_two(p: Part, q: Part) -> Ratio
    requires first { IsWithin largest_entry p.0 }
    requires second { IsWithin largest_turned q.0 }
    ensures { SameFraction (fraction_of result) (record { num = p.0 +ℤ q.0; den = pos 2 *ℤ UNIT }) }
{
    match Ratio::make((p.0 + q.0) as i128, 2 * UNIT as i128) {
        Some(ratio) => ratio,
        None => unreachable!(),
    }
}

/// The mean of tau and the first other vector e W tau. It is that over all operations that keep the orientation, since
/// these take tau to these two alone, half of them to each, where there is another.
pub(crate) fn mean(ops: &[Motion3], plane: &Miller, tau: &[Part; 3]) -> [Ratio; 3]
    requires operations { All IsSmall (map motion_of ops.now) }
    requires tau { IsVectorWithin largest_entry (parts tau.now) }
    ensures { IsMeanUp (row_of plane.now) (parts tau.now) (map motion_of ops.now) result }
{
    let up = other_up(ops, plane, tau);
    [
        mean_of_two(tau[0], up[0]),
        mean_of_two(tau[1], up[1]),
        mean_of_two(tau[2], up[2]),
    ]
}
