// Motions of space modulo the axis of a rod frame.
ghost use Rattle.std.specs.Prelude.{◌≡◌, ◌↔◌, ◌^◌, ◌≤ℤ◌, pos, IsTrue, MatchOption};
ghost use Rattle.symmetry.specs.Sizes.{IsVectorWithin};
ghost use Rattle.symmetry.specs.Vectors.{multiple};
ghost use Rattle.motions.specs.BasisView.{basis_of};
ghost use Rattle.motions.specs.Views.{motion_of, parts};
ghost use Rattle.plane_lattice.specs.Coordinates.{volume};
ghost use Rattle.penetration.specs.RodFrames.{DiffersAlong};
ghost use Rattle.penetration.specs.RodFrameView.{basis_of_rod};
ghost use Rattle.penetration.specs.RodHomes.{IsAlongAxis, IsAtRodHome, IsAxisShift, rod_home_of};
ghost use Rattle.penetration.specs.RodQuotientLaws.{axis_by_meaning, axis_home_is_same, axis_homes, axis_shifts};

use crate::frame::RodFrame;
use fractions::Part;
use motions::Motion3;
use plane_lattice::{DualBasis, floor, image, without};
use quotient::Quotient;

impl Quotient for RodFrame {
    type M = Motion3;

    const REACH: i64 = 1 << 23;

    ghost REACH = { pos (2 ^ 23) };

    ghost IsShift = { λ q m. IsAxisShift (basis_of_rod q) (motion_of m) };

    ghost home_of = { λ q m. rod_home_of (basis_of_rod q) m };

    /// Whether the motion is the translation by a whole multiple of the axis.
    fn is_shift(&self, m: &Motion3) -> bool {
        m.is_translation() && is_along_axis(&self.dual(), &m.t)
    }

    /// The motion at home that differs from this one by a whole multiple of the axis: its translation is x a + y b + k c
    /// with k from 0 to below 1.
    fn home(&self, m: &Motion3) -> Motion3
        requires { IsVectorWithin (2 ^ 23) (motion_of m.now).translation }
        ensures value { motion_of result ≡ motion_of (rod_home_of (basis_of_rod self.now) m.now) }
        ensures at_home { IsAtRodHome (basis_of_rod self.now) (motion_of result) }
        ensures differs { DiffersAlong (basis_of_rod self.now) (motion_of m.now)
            (motion_of result) }
        ensures small { IsVectorWithin (2 ^ 62) (motion_of result).translation }
    {
        let dual = self.dual();
        let [_, _, z] = dual.scaled(&m.t);
        let turns = floor(z, dual.volume);
        Motion3 {
            w: m.w,
            t: without(&m.t, &dual.basis, &[0, 0, turns]),
        }
    }

    /// Whether the matrix takes the axis to a whole multiple of it.
    fn keeps(&self, m: &Motion3) -> bool {
        let dual = self.dual();
        is_along_axis(&dual, &image(m, &dual.basis.tau))
    }

    ghost by_meaning = { λ q m n. axis_by_meaning (basis_of_rod q) m n };

    ghost shifts = { λ q. axis_shifts (basis_of_rod q) };

    ghost home_is_same = { λ q m. axis_home_is_same (basis_of_rod q) m };

    ghost homes = { λ q m n. axis_homes (basis_of_rod q) q.right_handed m n };
}

/// How often the vector has the third of the three vectors, of which it is a whole multiple. None comes exactly where it
/// is none.
pub(crate) fn axis_coordinate(dual: &DualBasis, v: &[Part; 3]) -> Option<i128>
    requires vector { IsVectorWithin (2 ^ 52) (parts v.now) }
    requires volume { pos 1 ≤ℤ volume (basis_of dual.now.basis) }
    ensures { MatchOption result (¬ IsAlongAxis (basis_of dual.now.basis) (parts v.now))
        (λ k. multiple k (basis_of dual.now.basis).tau ≡ parts v.now) }
{
    match dual.coordinates(v) {
        Some(c) => {
            if c[0] == 0 && c[1] == 0 {
                Some(c[2])
            } else {
                None
            }
        }
        None => None,
    }
}

/// Whether the vector is a whole multiple of the third of the three vectors.
fn is_along_axis(dual: &DualBasis, v: &[Part; 3]) -> bool
    requires vector { IsVectorWithin (2 ^ 52) (parts v.now) }
    requires volume { pos 1 ≤ℤ volume (basis_of dual.now.basis) }
    ensures { IsTrue result ↔ IsAlongAxis (basis_of dual.now.basis) (parts v.now) }
{
    match axis_coordinate(dual, v) {
        Some(_) => true,
        None => false,
    }
}
