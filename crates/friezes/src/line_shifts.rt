// The lattice along a line as the shifts that motions along it are taken modulo.
ghost use Rattle.std.specs.Prelude.{◌≡◌, ◌^◌, ◌≤ℤ◌, ◌<ℤ◌, pos};
ghost use Rattle.fractions.specs.Parts.{edge};
ghost use Rattle.friezes.specs.Laws.ShiftLaws.{by_meaning_lem, home_is_same_lem, homes_lem, shifts_lem};
ghost use Rattle.friezes.specs.Lines.{IsLineShift, line_home, line_of};

use crate::line_op::{EDGE, LineOp};
use quotient::{Motion, Quotient};

/// The translations by whole cell edges along a line, which motions along it are taken modulo.
#[derive(Clone, Copy, Debug)]
pub struct LineOpShifts;

impl Quotient for LineOpShifts {
    type M = LineOp;

    const REACH: i64 = 1 << 52;

    ghost REACH = { pos (2 ^ 52) };

    ghost IsShift = { λ q. IsLineShift };

    ghost home_of = { λ q. line_home };

    /// Whether the motion is the translation by a whole number of cell edges.
    fn is_shift(&self, m: &LineOp) -> bool {
        self.home(m) == LineOp::identity()
    }

    /// The motion with its translation modulo whole cell edges: from 0 to below [`EDGE`] half parts.
    fn home(&self, m: &LineOp) -> LineOp
        ensures value { line_of result ≡ line_of (line_home m.now) }
        ensures least { pos 0 ≤ℤ (line_of result).translation }
        ensures below { (line_of result).translation <ℤ edge }
    {
        LineOp {
            t: m.t.rem_euclid(EDGE),
            ..*m
        }
    }

    /// Each motion carries the lattice into itself.
    fn keeps(&self, _m: &LineOp) -> bool {
        true
    }

    ghost by_meaning = { λ q. by_meaning_lem };

    ghost shifts = { λ q. shifts_lem };

    ghost home_is_same = { λ q. home_is_same_lem };

    ghost homes = { λ q. homes_lem };
}
