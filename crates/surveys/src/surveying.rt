// The survey of a group.
ghost use Rattle.std.specs.Prelude.{◌≡◌, ◌≤ℤ◌, pos, IfOk, map, unsigned_abs};
ghost use Rattle.symmetry.specs.Groups.{Listing};
ghost use Rattle.motions.specs.Views.{row_of};
ghost use Rattle.closure.specs.Groups.{group_listing, IsGroupOf};
ghost use Rattle.surveys.specs.SurveyView.{surveyed_of};
ghost use Rattle.surveys.specs.Surveys.{HasCounts, IsSurvey};

use crate::images::images;
use crate::periods::period;
use crate::places::plane_at;
use crate::representatives::is_representative;
use crate::shifts::turned_shifts;
use crate::surveyed::Surveyed;
use closure::Group;
use motions::Miller;
use std::alloc::{AllocError, Global};

/// Memory ran out.
pub type NoMemory = AllocError;

/// The orientations with indices at most n in size to which no lexicographically greater such orientation is equivalent,
/// the greatest first, each with its counts: those of each listing of the group.
///
/// Two triples are equivalent where an operation W takes the one, (hkl), to the other or its opposite: (hkl) W or
/// -(hkl) W. So each orientation with such indices is equivalent to exactly one of the list. n is 1 to 5.
pub fn survey(alloc: Global, group: &Group, n: i64) -> Result<Vec<Surveyed>, NoMemory>
    requires from { pos 1 ≤ℤ n }
    requires most { n ≤ℤ pos 5 }
    ensures { (g : Listing) → IsGroupOf g group.now →
        IfOk result (λ list. IsSurvey g (unsigned_abs n) (map surveyed_of list.items)) }
{
    let mut list = Vec::new(alloc);
    let side = (2 * n + 1) as u32;
    for place in 0..side * side * side {
        if let Some(plane) = plane_at(n, place) {
            if is_representative(group, &plane, n.unsigned_abs()) {
                list.push(surveyed(alloc, group, plane)?)?;
            }
        }
    }
    Ok(list)
}

/// The orientation with its counts.
fn surveyed(alloc: Global, group: &Group, plane: Miller) -> Result<Surveyed, NoMemory>
    ensures plane { IfOk result (λ surveyed. row_of surveyed.plane ≡ row_of plane) }
    ensures counts { IfOk result (λ surveyed.
        HasCounts (group_listing group.now) (surveyed_of surveyed)) }
{
    let images = images(alloc, group, &plane)?.len() as u32;
    // Each of these shifts is twice a special height, and so is the one that is a period more.
    let special = 2 * turned_shifts(alloc, group, &plane, period(group, &plane))?.len() as u32;
    Ok(Surveyed {
        plane,
        images,
        special,
    })
}
