// The rod type of a section.
ghost use Rattle.std.specs.Prelude.{◌≡◌, ◌↔◌, ◌≤◌, All, IfOk, IfSome, IsNone, MatchOption};
ghost use Rattle.motions.specs.PlaneViews.{matrix2_of};
ghost use Rattle.recognition.specs.RodSearch.{IsFirstMatrix, IsOfNoMatrix};
ghost use Rattle.recognition.specs.RodOrder.{Change, IsBounded, IsFirst};
ghost use Rattle.recognition.specs.RodTypes.{HasChange, HasChangeOnto, change_of};
ghost use Rattle.recognition.specs.RodTests.{IsSmallRod};

use crate::found_rod::FoundRod;
use crate::recognise::NoMemory;
use crate::rod_search::{first_matrix, matrix_at};
use line_types::rod;
use motions::RodMotion;
use std::alloc::Global;

/// How many rod types there are.
const TYPES: u8 = 75;

/// The first change that carries a section onto the rod type of a number.
fn change_onto(section: &[RodMotion], number: u8) -> Option<FoundRod>
    requires section { All IsSmallRod section.now }
    requires from { 1 ≤ number }
    requires to { number ≤ 75 }
    ensures { MatchOption result (IsOfNoMatrix (HasChangeOnto section.now number))
        (λ f. (f.number ≡ number)
        × IsFirstMatrix (HasChangeOnto section.now number) (matrix2_of f.p) f.z) }
{
    match rod(number) {
        None => None,
        Some(t) => match first_matrix(section, t.ops) {
            None => None,
            Some(found) => Some(FoundRod {
                number,
                p: matrix_at(found.index),
                z: found.z,
            }),
        },
    }
}

/// The first change that carries a section onto a rod type.
fn first_change(section: &[RodMotion]) -> Option<FoundRod>
    requires { All IsSmallRod section.now }
    ensures first { IfSome result (λ f. IsFirst 75 (HasChange section.now) (change_of f)) }
    ensures none { IsNone result ↔ ((c : Change) → IsBounded 75 c → ¬ (HasChange section.now c)) }
{
    for number in 1..TYPES + 1 {
        if let Some(found) = change_onto(section, number) {
            return Some(found);
        }
    }
    None
}

/// The first bounded change that carries a section onto a rod type. None comes exactly where no bounded change does.
///
/// The section is that of the listed motions and whole multiples of the axis (International Tables, Volume E,
/// penetration rod groups). Its first change is onto the type of the least number, then by the matrix of the least sum of
/// sizes of entries, of these the lexicographically greatest, and then with the least origin. The motions are small; they
/// need not be known to be a group. Nothing is allocated, so that `NoMemory` does not come.
pub fn rod_type(_alloc: Global, section: &[RodMotion]) -> Result<Option<FoundRod>, NoMemory>
    requires { All IsSmallRod section.now }
    ensures first { IfOk result
        (λ found. IfSome found (λ f. IsFirst 75 (HasChange section.now) (change_of f))) }
    ensures none { IfOk result
        (λ found. IsNone found ↔ ((c : Change) → IsBounded 75 c → ¬ (HasChange section.now c))) }
{
    Ok(first_change(section))
}
