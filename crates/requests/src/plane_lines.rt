// The frieze groups of all lines of a plane group.
ghost use Rattle.std.specs.Prelude.{◌≡◌, IfErr, IfOk, pos};
ghost use Rattle.symmetry.specs.Groups.{Listing};
ghost use Rattle.motions.specs.Views.{row_of};
ghost use Rattle.closure.specs.Groups.{IsGroupOf, group_listing};
ghost use Rattle.plane_groups.specs.PlaneGroups.{IsFlatGroup};
ghost use Rattle.requests.specs.Answers.{Answers};
ghost use Rattle.requests.specs.Causes.{IsGroupsObstacle};
ghost use Rattle.requests.specs.Questions.{all_lines};

use crate::obstacle::Obstacle;
use closure::Group;
use line_reports::lines_text;
use line_scans::lines;
use motions::Miller;
use std::alloc::Global;

/// The text of the lines h x + k y = s of a plane group, where the plane is (h k 0).
pub fn all_lines_text(alloc: Global, group: &Group, plane: Miller) -> Result<Vec<u8>, Obstacle>
    requires group { IsFlatGroup (group_listing group.now) }
    requires line { plane.l ≡ pos 0 }
    ensures text { IfOk result (λ text. (g : Listing) → IsGroupOf g group.now →
        Answers g (all_lines (row_of plane)) text.items) }
    ensures obstacle { IfErr result (IsGroupsObstacle group.now (all_lines (row_of plane))) }
{
    let scan = lines(alloc, group, plane)?;
    Ok(lines_text(alloc, &scan)?)
}
