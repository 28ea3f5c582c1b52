// The origins of a change with a given type and matrix: whether one fits, and the least that does.
ghost use Rattle.std.specs.Prelude.{◌≡◌, ◌↔◌, ℕ, ◌+◌, ◌≤◌, ◌<◌, IsTrue, MatchOption, length};
ghost use Rattle.motions.specs.PlaneViews.{matrix2_of};
ghost use Rattle.layer_types.specs.LayerTypes.{IsLayerType};
ghost use Rattle.recognition.specs.Grid.{grid};
ghost use Rattle.recognition.specs.Agreement.{steps_of_pair};
ghost use Rattle.recognition.specs.Changes.{Carries};
ghost use Rattle.recognition.specs.Classes.{InClass, MeetsFirst};
ghost use Rattle.recognition.specs.Order.{IsBoundedMatrix, IsTypeNumber, origin_at};
ghost use Rattle.recognition.specs.Search.{IsLeastOrigin, IsNowhere};
ghost use Rattle.recognition.specs.Sections.{IsSection};
ghost use Rattle.recognition.specs.Listed.{Agrees, IsReady};

use crate::agreement::agrees;
use crate::change::carries;
use crate::classes::Class;
use crate::conditions::{MOST, conditions};
use crate::found::GRID;
use crate::least::{is_in, least_y, possible_x};
use crate::line::Condition;
use crate::matrices::takes_lattice;
use crate::steps::Steps;
use layer_types::{LayerType, layer};
use motions::LayerMotion;
use std::sync::ledger::Ledger;

/// Whether the change with the matrix p and the origin (x, y) carries the section onto the layer type of the number.
/// This is one step.
pub fn fits<L: Ledger>(
    section: &[LayerMotion],
    number: u8,
    p: [[i64; 2]; 2],
    x: u32,
    y: u32,
    steps: &mut Steps<L>,
) -> bool
    requires section { IsSection section.now }
    requires number { IsTypeNumber number }
    requires p { IsBoundedMatrix (matrix2_of p) }
    requires x { x < grid }
    requires y { y < grid }
    ensures answer { IsTrue result ↔ Carries section.now number (matrix2_of p) (origin_at x y) }
    ensures count { steps.new ≡ steps.old + 1 }
{
    steps.tick();
    match layer(number) {
        None => false,
        Some(t) => carries(section, t, &p, x, y),
    }
}

/// The least origin for a matrix that agrees.
pub(crate) fn least_of_agreeing<L: Ledger>(
    section: &[LayerMotion],
    number: u8,
    t: &LayerType,
    p: &[[i64; 2]; 2],
    steps: &mut Steps<L>,
) -> Option<(u32, u32)>
    requires number { IsTypeNumber number }
    requires of_type { IsLayerType number t.now }
    requires ready { IsReady section.now t.now }
    requires p { IsBoundedMatrix (matrix2_of p.now) }
    requires agrees { Agrees section.now t.now (matrix2_of p.now) }
    requires few { length section.now ≤ 24 }
    ensures origin { MatchOption result
        (IsNowhere (λ x y. Carries section.now number (matrix2_of p.now) (origin_at x y)))
        (λ o. IsLeastOrigin
        (λ x y. Carries section.now number (matrix2_of p.now) (origin_at x y)) o.0 o.1) }
    ensures count { steps.new ≤ steps.old + grid }
{
    let asked = conditions(section, t, p);
    match possible_x(&asked, section.len()) {
        None => None,
        Some(class) => least_among(section, number, t, p, &asked, &class, steps),
    }
}

/// The least origin for a matrix that agrees, among those with x in a class that has all that meet the conditions.
fn least_among<L: Ledger>(
    section: &[LayerMotion],
    number: u8,
    t: &LayerType,
    p: &[[i64; 2]; 2],
    asked: &[Condition; MOST],
    class: &Class,
    steps: &mut Steps<L>,
) -> Option<(u32, u32)>
    requires number { IsTypeNumber number }
    requires of_type { IsLayerType number t.now }
    requires ready { IsReady section.now t.now }
    requires p { IsBoundedMatrix (matrix2_of p.now) }
    requires few { length section.now ≤ 24 }
    requires asked { (x y : ℕ) → MeetsFirst (length section.now) asked.now x y
        ↔ Carries section.now number (matrix2_of p.now) (origin_at x y) }
    requires class { (x y : ℕ) → x < grid → MeetsFirst (length section.now) asked.now x y
        → InClass class.now.y class.now.step x }
    ensures origin { MatchOption result
        (IsNowhere (λ x y. Carries section.now number (matrix2_of p.now) (origin_at x y)))
        (λ o. IsLeastOrigin
        (λ x y. Carries section.now number (matrix2_of p.now) (origin_at x y)) o.0 o.1) }
    ensures count { steps.new ≤ steps.old + grid }
{
    for x in 0..GRID {
        if is_in(class, x) {
            if let Some(y) = least_y(asked, section.len(), x) {
                if fits(section, number, *p, x, y, steps) {
                    return Some((x, y));
                }
            }
        }
    }
    None
}

/// The lexicographically least origin (x, y) for which the change with the matrix p carries the section onto the layer
/// type of the number. None comes exactly where there is none.
pub fn first_origin<L: Ledger>(
    section: &[LayerMotion],
    number: u8,
    p: [[i64; 2]; 2],
    steps: &mut Steps<L>,
) -> Option<(u32, u32)>
    requires section { IsSection section.now }
    requires number { IsTypeNumber number }
    requires p { IsBoundedMatrix (matrix2_of p) }
    ensures origin { MatchOption result
        (IsNowhere (λ x y. Carries section.now number (matrix2_of p) (origin_at x y)))
        (λ o. IsLeastOrigin
        (λ x y. Carries section.now number (matrix2_of p) (origin_at x y)) o.0 o.1) }
    ensures count { steps.new ≤ steps.old + steps_of_pair }
{
    match layer(number) {
        None => None,
        Some(t) => {
            if section.len() != t.ops.len() {
                return None;
            }
            if !takes_lattice(t.centred, &p) {
                return None;
            }
            if !agrees(section, t, &p) {
                return None;
            }
            least_of_agreeing(section, number, t, &p, steps)
        }
    }
}
