// The lattice along the line of a frieze as the shifts that motions are taken modulo.
ghost use Rattle.std.specs.Prelude.{◌≡◌, ◌^◌, ◌≤ℤ◌, ◌<ℤ◌, pos};
ghost use Rattle.fractions.specs.declared.part.TheConstants.{UNIT};
ghost use Rattle.motions.specs.FriezeMotions.{frieze_of};
ghost use Rattle.line_types.specs.Laws.FriezeLaws.{frieze_line_laws};
ghost use Rattle.line_types.specs.Friezes.{frieze_home, frieze_line};
ghost use Rattle.line_types.specs.Laws.LineLaws.{by_meaning, home_is_same, homes, lattice_group};
ghost use Rattle.line_types.specs.Lines.{IsLatticeTranslation};

use fractions::Part;
use motions::FriezeMotion;
use quotient::{Motion, Quotient};

/// The translations by whole cell edges along the line x, which the types of friezes have as their lattice.
#[derive(Clone, Copy, Debug)]
pub struct FriezeShifts;

impl Quotient for FriezeShifts {
    type M = FriezeMotion;

    const REACH: i64 = 1 << 52;

    ghost REACH = { pos (2 ^ 52) };

    ghost IsShift = { λ q. IsLatticeTranslation frieze_line };

    ghost home_of = { λ q. frieze_home };

    /// Whether the motion is the translation by a whole number of cell edges.
    fn is_shift(&self, m: &FriezeMotion) -> bool {
        self.home(m) == FriezeMotion::identity()
    }

    /// The motion with its translation modulo whole cell edges: from 0 to below [`UNIT`](fractions::UNIT) parts.
    fn home(&self, m: &FriezeMotion) -> FriezeMotion
        ensures value { frieze_of result ≡ frieze_of (frieze_home m.now) }
        ensures least { pos 0 ≤ℤ (frieze_of result).translation }
        ensures below { (frieze_of result).translation <ℤ UNIT }
    {
        FriezeMotion {
            t: Part(m.t).reduced().0,
            ..*m
        }
    }

    /// Each motion carries the lattice into itself.
    fn keeps(&self, _m: &FriezeMotion) -> bool {
        true
    }

    ghost by_meaning = { λ q a b e h. by_meaning frieze_line frieze_line_laws a b e h };

    ghost shifts = { λ q. lattice_group frieze_line frieze_line_laws };

    ghost home_is_same = { λ q m. home_is_same frieze_line frieze_line_laws (frieze_of m) };

    ghost homes = { λ q m n. homes frieze_line frieze_line_laws (frieze_of m) (frieze_of n) };
}
