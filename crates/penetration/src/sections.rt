// Motions that map a line to itself, in the coordinates a', b' and the axis from a point of the line.
ghost use Rattle.std.specs.Prelude.{◌≡◌, ◌*◌, ◌*ℤ◌, ◌^◌, ◌≤ℤ◌, ℤ, pos, unsigned_abs, IfSome, MatchOption};
ghost use Rattle.fractions.specs.declared.part.TheConstants.{UNIT};
ghost use Rattle.integers.specs.Size.{IsWithin};
ghost use Rattle.symmetry.specs.Frames.{combination};
ghost use Rattle.symmetry.specs.Sizes.{IsSmall, IsVectorWithin};
ghost use Rattle.symmetry.specs.Vectors.{Vector, multiple};
ghost use Rattle.motions.specs.BasisView.{basis_of};
ghost use Rattle.motions.specs.PlaneSizes.{IsPairWithin};
ghost use Rattle.motions.specs.PlaneViews.{matrix2_of, pair_of};
ghost use Rattle.motions.specs.Views.{motion_of, parts};
ghost use Rattle.plane_lattice.specs.Bounds.{largest_entry};
ghost use Rattle.plane_lattice.specs.Coordinates.{IsCombination, volume};
ghost use Rattle.plane_lattice.specs.Sections.{columns};
ghost use Rattle.penetration.specs.RodHomes.{IsAlongAxis};

use crate::frame::RodFrame;
use crate::near::drift;
use crate::shifts::axis_coordinate;
use crate::signs::sign_along;
use closure::Group;
use fractions::{Part, UNIT};
use motions::{Motion3, RodMotion};
use plane_lattice::{DualBasis, image};

impl RodFrame {
    ghost use Rattle.std.specs.Prelude.{List};
    ghost use Rattle.symmetry.specs.Groups.{IsMember};
    ghost use Rattle.symmetry.specs.Motions.{Motion};
    ghost use Rattle.motions.specs.PlaneSizes.{IsMatrix2Within};
    ghost use Rattle.motions.specs.RodMotions.{rod_of};
    ghost use Rattle.closure.specs.Groups.{group_listing};
    ghost use Rattle.recognition.specs.RationalRods.{rational_rod};
    ghost use Rattle.penetration.specs.DirectionView.{direction_of};
    ghost use Rattle.penetration.specs.Lines.{KeepsLine};
    ghost use Rattle.penetration.specs.RodFrameView.{basis_of_rod, IsRodMadeFor};
    ghost use Rattle.penetration.specs.RodFrames.{AreRodOperations};
    ghost use Rattle.penetration.specs.RodSections.{ActsAs, counted, drift};

    /// The motion in the coordinates (a', b', c) from a point of a line along the axis c: the matrix and the sign with
    /// W a' = A00 a' + A10 b', W b' = A01 a' + A11 b' and W c = e c, and the translation t with W p + w - p = t c, counted
    /// in parts of the axis (International Tables, Volume E, penetration rod groups).
    ///
    /// None comes exactly where the motion does not map the line through the point to itself. The frame is one that
    /// [`make`](RodFrame::make) gives for the group, and the motion a small member of the group.
    pub fn section(&self, group: &Group, m: &Motion3, point: [Part; 3]) -> Option<RodMotion>
        requires made { IsRodMadeFor group.now self.now }
        requires motion { IsSmall (motion_of m.now) }
        requires member { IsMember (group_listing group.now) (motion_of m.now) }
        requires point { IsVectorWithin largest_entry (parts point) }
        ensures exact { MatchOption result
            (¬ KeepsLine (direction_of self.now.direction) (counted (parts point))
            (motion_of m.now))
            (λ _. KeepsLine (direction_of self.now.direction) (counted (parts point))
            (motion_of m.now)) }
        ensures acts { IfSome result (λ n. (rods : List Motion) →
            AreRodOperations (group_listing group.now) (direction_of self.now.direction) rods →
            ActsAs (direction_of self.now.direction) (basis_of_rod self.now) rods
            (counted (parts point)) (motion_of m.now) (rational_rod (rod_of n))) }
        ensures matrix { IfSome result (λ n. IsMatrix2Within 500 (matrix2_of n.a)) }
        ensures along { IfSome result (λ n.
            multiple n.t (parts self.now.axis)
            ≡ multiple UNIT (drift (motion_of m.now) (parts point))) }
    {
        let e = sign_along(m, &self.direction)?;
        let dual = self.dual();
        let t = parts_along(&dual, &drift(m, &point))?;
        let first = coordinates_across(&dual, &image(m, &dual.basis.a))?;
        let second = coordinates_across(&dual, &image(m, &dual.basis.b))?;
        Some(RodMotion {
            a: matrix_of_columns(&first, &second),
            e,
            t,
        })
    }
}

/// How many parts of the third of the three vectors the vector is. None comes exactly where it is no whole number of them.
fn parts_along(dual: &DualBasis, v: &[Part; 3]) -> Option<i64>
    requires vector { IsVectorWithin (2 ^ 46) (parts v.now) }
    requires volume { pos 1 ≤ℤ volume (basis_of dual.now.basis) }
    ensures { MatchOption result
        (¬ IsAlongAxis (basis_of dual.now.basis) (multiple UNIT (parts v.now)))
        (λ t. multiple t (basis_of dual.now.basis).tau ≡ multiple UNIT (parts v.now)) }
{
    match axis_coordinate(dual, &in_parts(v)) {
        Some(t) => Some(t as i64),
        None => None,
    }
}

/// [`UNIT`](fractions::UNIT) times a vector.
#[tactic(auto, unfolding(symmetry::specs::Vectors::multiple))]
fn in_parts(v: &[Part; 3]) -> [Part; 3]
    requires { IsVectorWithin (2 ^ 46) (parts v.now) }
    ensures is { parts result ≡ multiple UNIT (parts v.now) }
    ensures small { IsVectorWithin (2 ^ 52) (parts result) }
{
    [unit_times(v[0]), unit_times(v[1]), unit_times(v[2])]
}

/// [`UNIT`](fractions::UNIT) times a number of parts.
fn unit_times(part: Part) -> Part
    requires { IsWithin (2 ^ 46) part.0 }
    ensures is { result.0 ≡ UNIT *ℤ part.0 }
    ensures small { IsWithin (2 ^ 52) result.0 }
{
    Part(UNIT * part.0)
}

/// The coordinates along a and b of a vector with small whole coordinates. None comes exactly where it is no whole
/// combination of the three vectors.
fn coordinates_across(dual: &DualBasis, v: &[Part; 3]) -> Option<[i64; 2]>
    requires vector { IsVectorWithin (2 ^ 52) (parts v.now) }
    requires volume { pos 1 ≤ℤ volume (basis_of dual.now.basis) }
    requires near { (c : Vector) → combination (basis_of dual.now.basis) c ≡ parts v.now →
        IsVectorWithin 500 c }
    ensures is { MatchOption result (¬ IsCombination (basis_of dual.now.basis) (parts v.now))
        (λ p. (z : ℤ) × (combination (basis_of dual.now.basis)
        (record { x = (pair_of p).x; y = (pair_of p).y; z = z }) ≡ parts v.now)) }
    ensures small { IfSome result (λ p. IsPairWithin 500 (pair_of p)) }
{
    match dual.coordinates(v) {
        Some(c) => Some([c[0] as i64, c[1] as i64]),
        None => None,
    }
}

/// The matrix with these two columns.
fn matrix_of_columns(first: &[i64; 2], second: &[i64; 2]) -> [[i64; 2]; 2]
    ensures { matrix2_of result ≡ columns (pair_of first.now) (pair_of second.now) }
{
    [[first[0], second[0]], [first[1], second[1]]]
}
