// What the motions that map a line to itself do along it, from a point of it.
ghost use Rattle.std.specs.Prelude.{◌≡◌, ◌+ℤ◌, ◌-ℤ◌, ◌*ℤ◌, ◌^◌, ◌≤ℤ◌, ◌<ℤ◌, ℤ, pos};
ghost use Rattle.fractions.specs.declared.part.TheConstants.{UNIT};
ghost use Rattle.integers.specs.Size.{IsWithin};
ghost use Rattle.symmetry.specs.Sizes.{IsVectorWithin};
ghost use Rattle.symmetry.specs.Vectors.{multiple};
ghost use Rattle.motions.specs.BasisView.{basis_of};
ghost use Rattle.motions.specs.Views.{parts};
ghost use Rattle.plane_lattice.specs.Bounds.{largest_entry, largest_turned};
ghost use Rattle.plane_lattice.specs.Coordinates.{volume};

use fractions::{Part, UNIT, whole_quotient};
use friezes::{EDGE, LineOp};
use motions::{Motion3, Sign, side};
use plane_lattice::{DualBasis, Frame, image};
use scanning::Height;

/// The point (`step` / [`EDGE`]) tau of a frame of lines, from which the motions of the line through it are seen.
#[derive(Clone, Copy, Debug)]
pub(crate) struct Viewpoint {
    pub frame: Frame,
    pub step: i64,
    pub ghost from: { pos 0 ≤ℤ step },
    pub ghost below: { step <ℤ (pos 2 *ℤ UNIT) },
}

impl Viewpoint {
    ghost use Rattle.symmetry.specs.Sizes.{IsSmall};
    ghost use Rattle.symmetry.specs.Vectors.{Vector, multiple};
    ghost use Rattle.motions.specs.Views.{motion_of, row_of};
    ghost use Rattle.plane_lattice.specs.FrameView.{basis_of_frame};
    ghost use Rattle.plane_lattice.specs.Sections.{drift};
    ghost use Rattle.line_scans.specs.LineOps.{HasLineOp, IsLineOp, IsStep};

    /// The point of the line at a special height.
    pub fn at(frame: &Frame, height: &Height) -> Viewpoint
        requires { (k : ℤ) × IsStep frame.now.period.0 height.now.level k }
        ensures frame { result.frame ≡ frame.now }
        ensures step { IsStep frame.now.period.0 height.now.level result.step }
    {
        let parts = height.level * UNIT;
        let Some(step) = whole_quotient(i128::from(parts), i128::from(frame.period.0)) else {
            unreachable!()
        };
        Viewpoint {
            frame: *frame,
            step: step as i64,
        }
    }

    /// What the motion does along the line.
    pub fn line_op(&self, m: &Motion3) -> LineOp
        requires motion { IsSmall (motion_of m.now) }
        requires line { HasLineOp (row_of self.now.frame.plane)
            (basis_of_frame self.now.frame) self.now.step (motion_of m.now) }
        ensures { IsLineOp (row_of self.now.frame.plane)
            (basis_of_frame self.now.frame) self.now.step (motion_of m.now) result }
    {
        let Some(e) = side(m, &self.frame.plane) else {
            unreachable!()
        };
        let dual = self.frame.dual();
        let turned = multiple_of_a(&dual, &image(m, &dual.basis.a));
        LineOp {
            f: if turned == 1 { Sign::Plus } else { Sign::Minus },
            e,
            t: multiple_of_a(&dual, &self.drift(m)),
        }
    }

    /// How far the motion moves the point, times [`EDGE`].
    fn drift(&self, m: &Motion3) -> [Part; 3]
        requires { IsSmall (motion_of m.now) }
        ensures is { parts result
            ≡ drift (motion_of m.now) (parts self.now.frame.tau) self.now.step }
        ensures small { IsVectorWithin (2 ^ 52) (parts result) }
    {
        let turned = image(m, &self.frame.tau);
        [
            self.drift_along(turned[0], self.frame.tau[0], m.t[0]),
            self.drift_along(turned[1], self.frame.tau[1], m.t[1]),
            self.drift_along(turned[2], self.frame.tau[2], m.t[2]),
        ]
    }

    /// An entry of it.
    fn drift_along(&self, turned: Part, tau: Part, translation: Part) -> Part
        requires turned { IsWithin largest_turned turned.0 }
        requires tau { IsWithin largest_entry tau.0 }
        requires translation { IsWithin (2 ^ 40) translation.0 }
        ensures is { result.0
            ≡ self.now.step *ℤ (turned.0 -ℤ tau.0) +ℤ pos 2 *ℤ UNIT *ℤ translation.0 }
        ensures small { IsWithin (2 ^ 52) result.0 }
    {
        Part(self.step * (turned.0 - tau.0) + EDGE * translation.0)
    }
}

/// The number by which the vector is a multiple of a.
fn multiple_of_a(dual: &DualBasis, v: &[Part; 3]) -> i64
    requires vector { IsVectorWithin (2 ^ 52) (parts v.now) }
    requires volume { pos 1 ≤ℤ volume (basis_of dual.now.basis) }
    requires multiple { (k : ℤ) × (multiple k (basis_of dual.now.basis).a ≡ parts v.now) }
    ensures { multiple result (basis_of dual.now.basis).a ≡ parts v.now }
{
    let Some(c) = dual.coordinates(v) else {
        unreachable!()
    };
    c[0] as i64
}
