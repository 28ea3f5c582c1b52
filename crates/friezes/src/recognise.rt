// The frieze type of a section along a line.
ghost use Rattle.std.specs.Prelude.{◌≡◌, All, MatchOption};
ghost use Rattle.fractions.specs.Parts.{rest_of_edge};
ghost use Rattle.friezes.specs.Order.{IsFirst};
ghost use Rattle.friezes.specs.Sections.{IsSection};
ghost use Rattle.friezes.specs.Told.{StandsAt, mirror_or_glide, number_of, origin_of};
ghost use Rattle.friezes.specs.Types.{HasChange, change_of};

use crate::found_frieze::FoundFrieze;
use crate::line_op::{EDGE, LineOp};
use motions::Sign;

/// The translation of the first motion of the list with these signs.
fn shift_of(section: &[LineOp], f: Sign, e: Sign) -> Option<i64>
    ensures { MatchOption result (All (λ m. ¬ ((m.f ≡ f) × (m.e ≡ e))) section.now)
        (StandsAt section.now f e) }
{
    section.iter().find(|m| m.f == f && m.e == e).map(|m| m.t)
}

/// The translation modulo whole cell edges.
fn rest_of_edge(t: i64) -> i64
    ensures { result ≡ rest_of_edge t }
{
    t.rem_euclid(EDGE)
}

/// The one number for a mirror in the line, and the other for a glide.
fn mirror_or_glide(mirror: u8, glide: u8, t: i64) -> u8
    ensures { result ≡ mirror_or_glide mirror glide t }
{
    if rest_of_edge(t) == 0 { mirror } else { glide }
}

/// The number of the type, by the glide in the line, the mirror across it and the half-turn.
fn number(glide: Option<i64>, mirror: Option<i64>, turn: Option<i64>) -> u8
    ensures { result ≡ number_of glide mirror turn }
{
    match (glide, mirror, turn) {
        (None, None, None) => 1,
        (None, None, Some(_)) => 2,
        (None, Some(_), _) => 3,
        (Some(t), _, None) => mirror_or_glide(4, 5, t),
        (Some(t), _, Some(_)) => mirror_or_glide(6, 7, t),
    }
}

/// The least origin at which the type has a half-turn, or without one a mirror across the line: what turns the line
/// and moves the old origin by t keeps the point at t/2.
fn origin(turn: Option<i64>, mirror: Option<i64>) -> u32
    ensures { result ≡ origin_of turn mirror }
{
    match turn.or(mirror) {
        Some(t) => rest_of_edge(t) as u32,
        None => 0,
    }
}

/// The first change that carries a section along a line onto a frieze type: of the least number, and then with the
/// least origin. There always is one.
///
/// The section is that of the listed motions and whole cell edges (International Tables, Volume E, frieze groups).
/// It is a group, in which a motion that turns nothing moves by whole cell edges.
pub fn frieze_type(section: &[LineOp]) -> FoundFrieze
    requires { IsSection section.now }
    ensures { IsFirst (HasChange section.now) (change_of result) }
{
    let glide = shift_of(section, Sign::Plus, Sign::Minus);
    let mirror = shift_of(section, Sign::Minus, Sign::Plus);
    let turn = shift_of(section, Sign::Minus, Sign::Minus);
    FoundFrieze {
        number: number(glide, mirror, turn),
        x: origin(turn, mirror),
    }
}
