// Motions that map a plane to itself, in the coordinates (a, b, c') from a point of the plane.
ghost use Rattle.std.specs.Prelude.{◌≡◌, ◌+ℤ◌, ◌-ℤ◌, ◌*ℤ◌, ◌^◌, ◌≤ℤ◌, ◌<ℤ◌, pos, MatchOption};
ghost use Rattle.fractions.specs.declared.part.TheConstants.{UNIT};
ghost use Rattle.integers.specs.Size.{IsWithin};
ghost use Rattle.symmetry.specs.Frames.{combination};
ghost use Rattle.symmetry.specs.Sizes.{IsSmall, IsVectorWithin};
ghost use Rattle.motions.specs.BasisView.{basis_of};
ghost use Rattle.motions.specs.PlaneMatrices.{Pair, in_space};
ghost use Rattle.motions.specs.PlaneSizes.{IsPairWithin};
ghost use Rattle.motions.specs.PlaneViews.{matrix2_of, pair_of};
ghost use Rattle.motions.specs.Views.{motion_of, parts};
ghost use Rattle.plane_lattice.specs.Bounds.{largest_entry, largest_turned};
ghost use Rattle.plane_lattice.specs.Coordinates.{IsPlaneCombination, volume};
ghost use Rattle.plane_lattice.specs.Sections.{columns, drift};

use crate::dual_basis::DualBasis;
use crate::frame::Frame;
use crate::images::image;
use closure::Group;
use fractions::{Part, UNIT};
use motions::{LayerMotion, Motion3, side};

impl Frame {
    ghost use Rattle.std.specs.Prelude.{IfSome, List};
    ghost use Rattle.symmetry.specs.Frames.{IsAtHome, mean_of};
    ghost use Rattle.symmetry.specs.Groups.{IsMember};
    ghost use Rattle.symmetry.specs.Lists.{AreScanning};
    ghost use Rattle.symmetry.specs.Motions.{Motion};
    ghost use Rattle.symmetry.specs.Planes.{KeepsPlane};
    ghost use Rattle.symmetry.specs.Vectors.{dot};
    ghost use Rattle.motions.specs.Layers.{IsPlanarSmall, planar_of};
    ghost use Rattle.motions.specs.Rationals.{rational_of};
    ghost use Rattle.motions.specs.Views.{row_of};
    ghost use Rattle.closure.specs.Groups.{group_listing};
    ghost use Rattle.plane_lattice.specs.FrameOf.{IsMadeFor};
    ghost use Rattle.plane_lattice.specs.FrameView.{basis_of_frame};
    ghost use Rattle.plane_lattice.specs.Sections.{IsSeenAs, height_in_steps, in_cell, largest_drift, point_at};

    /// The motion in the coordinates (a, b, c') from the point (`steps` / 2 [`UNIT`](fractions::UNIT)) tau of the plane
    /// at the height (`steps` / 2 UNIT) d: the matrix and the sign with W a = A00 a + A10 b, W b = A01 a + A11 b and
    /// W c' = e c', and the translation in the plane in half parts (International Tables, Volume E, part 5).
    ///
    /// None comes exactly where the motion does not map that plane to itself. The frame is one that
    /// [`make`](Frame::make) gives for the group, and the motion a member of the group, at home.
    pub fn section(&self, group: &Group, m: &Motion3, steps: i64) -> Option<LayerMotion>
        requires made { IsMadeFor group.now self.now }
        requires motion { IsSmall (motion_of m.now) }
        requires at_home { IsAtHome (basis_of_frame self.now) (motion_of m.now) }
        requires member { IsMember (group_listing group.now) (motion_of m.now) }
        requires from { pos 0 ≤ℤ steps }
        requires below { steps <ℤ (pos 2 *ℤ UNIT) }
        ensures exact { MatchOption result
            (¬ KeepsPlane (row_of self.now.plane)
            (height_in_steps (dot (row_of self.now.plane) (parts self.now.tau)) steps)
            (motion_of m.now))
            (λ _. KeepsPlane (row_of self.now.plane)
            (height_in_steps (dot (row_of self.now.plane) (parts self.now.tau)) steps)
            (motion_of m.now)) }
        ensures seen { IfSome result (λ n. (ms : List Motion) →
            AreScanning (group_listing group.now) (row_of self.now.plane) ms →
            IsSeenAs (basis_of_frame self.now) (mean_of (row_of self.now.plane)
            (parts self.now.tau) ms)
            (point_at (dot (row_of self.now.plane) (parts self.now.tau))
            (height_in_steps (dot (row_of self.now.plane) (parts self.now.tau)) steps)
            (in_cell (parts self.now.tau)))
            (motion_of m.now) (rational_of (planar_of n))) }
        ensures small { IfSome result (λ n. IsPlanarSmall (planar_of n)) }
        ensures near { IfSome result (λ n. IsPairWithin largest_drift (planar_of n).translation) }
    {
        let e = side(m, &self.plane)?;
        let dual = self.dual();
        let first = coordinates_in_plane(&dual, &image(m, &dual.basis.a))?;
        let second = coordinates_in_plane(&dual, &image(m, &dual.basis.b))?;
        let t = coordinates_in_plane(&dual, &drift(m, &dual.basis.tau, steps))?;
        Some(LayerMotion {
            a: matrix_of_columns(&first, &second),
            e,
            t,
        })
    }
}

/// The coordinates of a vector in a and b. None comes exactly where it is no whole combination of these.
fn coordinates_in_plane(dual: &DualBasis, v: &[Part; 3]) -> Option<[i64; 2]>
    requires vector { IsVectorWithin (2 ^ 52) (parts v.now) }
    requires volume { pos 1 ≤ℤ volume (basis_of dual.now.basis) }
    requires near { (c : Pair) → combination (basis_of dual.now.basis) (in_space c) ≡ parts v.now →
        IsPairWithin (2 ^ 40) c }
    ensures { MatchOption result (¬ IsPlaneCombination (basis_of dual.now.basis) (parts v.now))
        (λ c. combination (basis_of dual.now.basis) (in_space (pair_of c)) ≡ parts v.now) }
{
    match dual.coordinates(v) {
        Some(c) => {
            if c[2] == 0 {
                Some([c[0] as i64, c[1] as i64])
            } else {
                None
            }
        }
        None => None,
    }
}

/// The matrix with these two columns.
fn matrix_of_columns(first: &[i64; 2], second: &[i64; 2]) -> [[i64; 2]; 2]
    ensures { matrix2_of result ≡ columns (pair_of first.now) (pair_of second.now) }
{
    [[first[0], second[0]], [first[1], second[1]]]
}

/// How far the motion moves the point (`steps` / 2 UNIT) tau, times 2 UNIT.
fn drift(m: &Motion3, tau: &[Part; 3], steps: i64) -> [Part; 3]
    requires motion { IsSmall (motion_of m.now) }
    requires tau { IsVectorWithin largest_entry (parts tau.now) }
    requires from { pos 0 ≤ℤ steps }
    requires below { steps <ℤ (pos 2 *ℤ UNIT) }
    ensures is { parts result ≡ drift (motion_of m.now) (parts tau.now) steps }
    ensures small { IsVectorWithin (2 ^ 52) (parts result) }
{
    let turned = image(m, tau);
    [
        drift_along(turned[0], tau[0], m.t[0], steps),
        drift_along(turned[1], tau[1], m.t[1], steps),
        drift_along(turned[2], tau[2], m.t[2], steps),
    ]
}

/// An entry of it.
fn drift_along(turned: Part, tau: Part, translation: Part, steps: i64) -> Part
    requires turned { IsWithin largest_turned turned.0 }
    requires tau { IsWithin largest_entry tau.0 }
    requires translation { IsWithin (2 ^ 40) translation.0 }
    requires from { pos 0 ≤ℤ steps }
    requires below { steps <ℤ (pos 2 *ℤ UNIT) }
    ensures is { result.0 ≡ steps *ℤ (turned.0 -ℤ tau.0) +ℤ pos 2 *ℤ UNIT *ℤ translation.0 }
    ensures small { IsWithin (2 ^ 52) result.0 }
{
    Part(steps * (turned.0 - tau.0) + 2 * UNIT * translation.0)
}
