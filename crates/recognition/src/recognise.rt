// The first change of a section.
ghost use Rattle.std.specs.Prelude.{◌≡◌, ◌⊎◌, ◌↔◌, ◌+◌, ◌≤◌, IfOk, IfSome, IsNone, MatchOption, length};
ghost use Rattle.motions.specs.PlaneViews.{matrix2_of};
ghost use Rattle.layer_types.specs.LayerTypes.{IsLayerType};
ghost use Rattle.recognition.specs.Agreement.{IsAgreeing, IsPairingBefore, IsWithinSteps, steps_of_pair};
ghost use Rattle.recognition.specs.Changes.{Carries};
ghost use Rattle.recognition.specs.Order.{HasNoChange, IsBoundedMatrix, IsFirstChange, IsMatrixBefore, IsTypeNumber, origin_at};
ghost use Rattle.recognition.specs.Search.{HasNoMatrix, IsFirstMatrix, IsLeastOrigin, IsNowhere, change_of, pairing_of};
ghost use Rattle.recognition.specs.Sections.{IsSection};
ghost use Rattle.recognition.specs.Listed.{Agrees, IsReady, TakesLattice};

use crate::agreement::agrees;
use crate::found::Found;
use crate::matrices::matrices;
use crate::origins::least_of_agreeing;
use crate::steps::Steps;
use layer_types::{LayerType, layer};
use motions::LayerMotion;
use std::alloc::{AllocError, Global};
use std::sync::ledger::Ledger;

/// The answer where memory runs out.
pub type NoMemory = AllocError;

/// A matrix with an origin.
#[derive(Clone, Copy, Debug)]
pub(crate) struct Placed {
    pub(crate) p: [[i64; 2]; 2],
    pub(crate) x: u32,
    pub(crate) y: u32,
}

/// The least origin for a matrix that takes the type's lattice onto the whole vectors.
fn try_matrix<L: Ledger>(
    section: &[LayerMotion],
    number: u8,
    t: &LayerType,
    p: &[[i64; 2]; 2],
    steps: &mut Steps<L>,
) -> Option<(u32, u32)>
    requires number { IsTypeNumber number }
    requires of_type { IsLayerType number t.now }
    requires ready { IsReady section.now t.now }
    requires p { IsBoundedMatrix (matrix2_of p.now) }
    requires lattice { TakesLattice t.now.centred (matrix2_of p.now) }
    requires few { length section.now ≤ 24 }
    ensures origin { MatchOption result
        (IsNowhere (λ x y. Carries section.now number (matrix2_of p.now) (origin_at x y)))
        (λ o. IsLeastOrigin
        (λ x y. Carries section.now number (matrix2_of p.now) (origin_at x y)) o.0 o.1) }
    ensures count { (steps.new ≡ steps.old)
        ⊎ (Agrees section.now t.now (matrix2_of p.now) × (steps.new ≤ steps.old + steps_of_pair)) }
{
    if !agrees(section, t, p) {
        return None;
    }
    least_of_agreeing(section, number, t, p, steps)
}

/// The first matrix for a type, with its least origin.
fn first_matrix<L: Ledger>(
    section: &[LayerMotion],
    number: u8,
    t: &LayerType,
    steps: &mut Steps<L>,
) -> Option<Placed>
    requires number { IsTypeNumber number }
    requires of_type { IsLayerType number t.now }
    requires ready { IsReady section.now t.now }
    requires few { length section.now ≤ 24 }
    ensures matrix { MatchOption result
        (HasNoMatrix (λ p x y. Carries section.now number p (origin_at x y)))
        (λ f. IsFirstMatrix (λ p x y. Carries section.now number p (origin_at x y))
        (matrix2_of f.p) f.x f.y) }
    ensures count { MatchOption result
        (IsWithinSteps (λ a. (a.number ≡ number) × IsAgreeing section.now a) steps.old steps.new)
        (λ f. IsWithinSteps (λ a. (a.number ≡ number) × IsAgreeing section.now a
        × (¬ IsMatrixBefore (matrix2_of f.p) a.matrix)) steps.old steps.new) }
{
    let table = matrices(t.centred);
    for p in table {
        if let Some((x, y)) = try_matrix(section, number, t, p, steps) {
            return Some(Placed { p: *p, x, y });
        }
    }
    None
}

/// The first matrix for the type of a number, with its least origin.
fn first_of_type<L: Ledger>(
    section: &[LayerMotion],
    number: u8,
    steps: &mut Steps<L>,
) -> Option<Placed>
    requires section { IsSection section.now }
    requires number { IsTypeNumber number }
    ensures matrix { MatchOption result
        (HasNoMatrix (λ p x y. Carries section.now number p (origin_at x y)))
        (λ f. IsFirstMatrix (λ p x y. Carries section.now number p (origin_at x y))
        (matrix2_of f.p) f.x f.y) }
    ensures count { MatchOption result
        (IsWithinSteps (λ a. (a.number ≡ number) × IsAgreeing section.now a) steps.old steps.new)
        (λ f. IsWithinSteps (λ a. (a.number ≡ number) × IsAgreeing section.now a
        × (¬ IsMatrixBefore (matrix2_of f.p) a.matrix)) steps.old steps.new) }
{
    match layer(number) {
        None => None,
        Some(t) => {
            if section.len() != t.ops.len() {
                return None;
            }
            first_matrix(section, number, t, steps)
        }
    }
}

/// The first bounded change that carries the section onto a layer type. None comes exactly where there is none.
///
/// The section has small motions, of which no two differ by a whole vector; it need not be known to be a group. Nothing
/// is allocated, so that `NoMemory` does not come.
///
/// The count rises by at most four times [`GRID`](crate::GRID) for each pair of a type and a matrix that agrees with
/// the section and, where a change is found, does not stand behind it.
pub fn layer_type<L: Ledger>(
    _alloc: Global,
    section: &[LayerMotion],
    steps: &mut Steps<L>,
) -> Result<Option<Found>, NoMemory>
    requires { IsSection section.now }
    ensures first { IfOk result (λ o. IfSome o (λ f. IsFirstChange section.now (change_of f))) }
    ensures none { IfOk result (λ o. IsNone o ↔ HasNoChange section.now) }
    ensures steps { IsWithinSteps (IsAgreeing section.now) steps.old steps.new }
    ensures steps_of_found { IfOk result (λ o. IfSome o (λ f.
        IsWithinSteps (λ a. IsAgreeing section.now a
        × (¬ IsPairingBefore (pairing_of f) a)) steps.old steps.new)) }
{
    for number in 1..=80u8 {
        if let Some(found) = first_of_type(section, number, steps) {
            let p = found.p;
            return Ok(Some(Found {
                number,
                p,
                x: found.x,
                y: found.y,
            }));
        }
    }
    Ok(None)
}
