// The lattice along the axis of a rod as the shifts that motions are taken modulo.
ghost use Rattle.std.specs.Prelude.{◌≡◌, ◌^◌, ◌≤ℤ◌, ◌<ℤ◌, pos};
ghost use Rattle.fractions.specs.declared.part.TheConstants.{UNIT};
ghost use Rattle.motions.specs.RodMotions.{rod_of};
ghost use Rattle.line_types.specs.Laws.RodLaws.{rod_line_laws};
ghost use Rattle.line_types.specs.Rods.{rod_home, rod_line};
ghost use Rattle.line_types.specs.Laws.LineLaws.{by_meaning, home_is_same, homes, lattice_group};
ghost use Rattle.line_types.specs.Lines.{IsLatticeTranslation};

use fractions::Part;
use motions::RodMotion;
use quotient::{Motion, Quotient};

/// The translations by whole cell edges along the axis z, which the types of rods have as their lattice.
#[derive(Clone, Copy, Debug)]
pub struct RodShifts;

impl Quotient for RodShifts {
    type M = RodMotion;

    const REACH: i64 = 1 << 52;

    ghost REACH = { pos (2 ^ 52) };

    ghost IsShift = { λ q. IsLatticeTranslation rod_line };

    ghost home_of = { λ q. rod_home };

    /// Whether the motion is the translation by a whole number of cell edges.
    fn is_shift(&self, m: &RodMotion) -> bool {
        self.home(m) == RodMotion::identity()
    }

    /// The motion with its translation modulo whole cell edges: from 0 to below [`UNIT`](fractions::UNIT) parts.
    fn home(&self, m: &RodMotion) -> RodMotion
        ensures value { rod_of result ≡ rod_of (rod_home m.now) }
        ensures least { pos 0 ≤ℤ (rod_of result).translation }
        ensures below { (rod_of result).translation <ℤ UNIT }
    {
        RodMotion {
            t: Part(m.t).reduced().0,
            ..*m
        }
    }

    /// Each motion carries the lattice into itself.
    fn keeps(&self, _m: &RodMotion) -> bool {
        true
    }

    ghost by_meaning = { λ q a b e h. by_meaning rod_line rod_line_laws a b e h };

    ghost shifts = { λ q. lattice_group rod_line rod_line_laws };

    ghost home_is_same = { λ q m. home_is_same rod_line rod_line_laws (rod_of m) };

    ghost homes = { λ q m n. homes rod_line rod_line_laws (rod_of m) (rod_of n) };
}
