// Which lists of motions along a line are sections.
ghost use Rattle.std.specs.Prelude.{◌↔◌, All, IsTrue};
ghost use Rattle.friezes.specs.Sections.{IsSection, IsSmallLine, IsTurnOrShift};

use crate::line_op::LineOp;
use crate::line_shifts::LineOpShifts;
use motions::Sign;
use quotient::{Quotient, check_group};

/// Whether the motion turns something, or moves by whole cell edges.
fn is_turn_or_shift(m: &LineOp) -> bool
    requires { IsSmallLine m.now }
    ensures { IsTrue result ↔ IsTurnOrShift m.now }
{
    m.f == Sign::Minus || m.e == Sign::Minus || LineOpShifts.is_shift(m)
}

/// Whether each motion of the list turns something, or moves by whole cell edges.
fn are_turns_or_shifts(section: &[LineOp]) -> bool
    requires { All IsSmallLine section.now }
    ensures { IsTrue result ↔ All IsTurnOrShift section.now }
{
    section.iter().all(is_turn_or_shift)
}

/// Whether a list of small motions is a section along a line: a group modulo whole cell edges, in which a motion
/// that turns nothing moves by whole cell edges.
pub fn is_section(section: &[LineOp]) -> bool
    requires { All IsSmallLine section.now }
    ensures { IsTrue result ↔ IsSection section.now }
{
    are_turns_or_shifts(section) && check_group(&LineOpShifts, section).is_ok()
}
