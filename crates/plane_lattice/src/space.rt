// Motions of space modulo the plane lattice of a frame.
ghost use Rattle.std.specs.Prelude.{◌≡◌, ◌↔◌, ◌^◌, ◌≤ℤ◌, pos, IsTrue};
ghost use Rattle.symmetry.specs.Frames.{IsAtHome};
ghost use Rattle.symmetry.specs.Sizes.{IsSmall, IsVectorWithin};
ghost use Rattle.symmetry.specs.Vectors.{dot, image, minus};
ghost use Rattle.motions.specs.BasisView.{basis_of};
ghost use Rattle.motions.specs.Views.{motion_of, row_of};
ghost use Rattle.plane_lattice.specs.Bounds.{largest_home};
ghost use Rattle.plane_lattice.specs.Coordinates.{IsPlaneCombination, volume};
ghost use Rattle.plane_lattice.specs.FrameView.{basis_of_frame};
ghost use Rattle.plane_lattice.specs.PlaneLattice.{IsPlaneShift, home_of_motion};
ghost use Rattle.plane_lattice.specs.Laws.QuotientLaws.{plane_by_meaning, plane_shifts, plane_home_is_same, plane_homes};

use crate::coordinates::{whole_part, without};
use crate::dual_basis::DualBasis;
use crate::frame::Frame;
use crate::images::image;
use motions::Motion3;
use quotient::Quotient;

impl Quotient for Frame {
    type M = Motion3;

    const REACH: i64 = 1 << 20;

    ghost REACH = { pos (2 ^ 20) };

    ghost IsShift = { λ q m. IsPlaneShift (basis_of_frame q) (motion_of m) };

    ghost home_of = { λ q m. home_of_motion (basis_of_frame q) m };

    /// Whether the motion is the translation by a whole combination of a and b.
    fn is_shift(&self, m: &Motion3) -> bool {
        m.is_translation() && self.dual().is_in_plane(&m.t)
    }

    /// The motion at home that differs from this one by a whole combination of a and b: its translation has coordinates
    /// from 0 to below 1 along a and b.
    fn home(&self, m: &Motion3) -> Motion3
        requires { IsVectorWithin (2 ^ 20) (motion_of m.now).translation }
        ensures value { motion_of result
            ≡ motion_of (home_of_motion (basis_of_frame self.now) m.now) }
        ensures at_home { IsAtHome (basis_of_frame self.now) (motion_of result) }
        ensures matrix { (motion_of result).matrix ≡ (motion_of m.now).matrix }
        ensures differs { IsPlaneCombination (basis_of_frame self.now)
            (minus (motion_of m.now).translation (motion_of result).translation) }
        ensures level { dot (row_of self.now.plane) (motion_of result).translation
            ≡ dot (row_of self.now.plane) (motion_of m.now).translation }
        ensures small { IsVectorWithin largest_home (motion_of result).translation }
    {
        let dual = self.dual();
        let whole = whole_part(&dual.scaled(&m.t), dual.volume);
        Motion3 {
            w: m.w,
            t: without(&m.t, &dual.basis, &whole),
        }
    }

    /// Whether the matrix takes each whole combination of a and b to such a combination.
    fn keeps(&self, m: &Motion3) -> bool {
        keeps_plane(&self.dual(), m)
    }

    ghost by_meaning = { λ q m n. plane_by_meaning (basis_of_frame q) m n };

    ghost shifts = { λ q. plane_shifts (basis_of_frame q) };

    ghost home_is_same = { λ q m. plane_home_is_same (basis_of_frame q) m };

    ghost homes = { λ q m n. plane_homes (basis_of_frame q) q.right_handed m n };
}

/// Whether the matrix of the motion takes a and b to whole combinations of a and b.
fn keeps_plane(dual: &DualBasis, m: &Motion3) -> bool
    requires motion { IsSmall (motion_of m.now) }
    requires volume { pos 1 ≤ℤ volume (basis_of dual.now.basis) }
    ensures { IsTrue result
        ↔ (IsPlaneCombination (basis_of dual.now.basis)
        (image (motion_of m.now).matrix (basis_of dual.now.basis).a)
        × IsPlaneCombination (basis_of dual.now.basis)
        (image (motion_of m.now).matrix (basis_of dual.now.basis).b)) }
{
    dual.is_in_plane(&image(m, &dual.basis.a)) && dual.is_in_plane(&image(m, &dual.basis.b))
}
