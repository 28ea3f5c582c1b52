// The operations that map one line to itself, and their rod type.
ghost use Rattle.std.specs.Prelude.{IfErr, IfOk};
ghost use Rattle.symmetry.specs.Groups.{Listing};
ghost use Rattle.symmetry.specs.Sizes.{IsVectorWithin};
ghost use Rattle.motions.specs.Views.{parts};
ghost use Rattle.closure.specs.Groups.{IsGroupOf};
ghost use Rattle.plane_lattice.specs.Bounds.{largest_entry};
ghost use Rattle.penetration.specs.DirectionView.{direction_of};
ghost use Rattle.requests.specs.Answers.{Answers};
ghost use Rattle.requests.specs.Causes.{IsGroupsObstacle};
ghost use Rattle.requests.specs.Questions.{along_line};

use crate::obstacle::Obstacle;
use closure::Group;
use fractions::Part;
use penetration::{Direction, RodBasis, RodFrame, rod_at};
use report::rod_text;
use std::alloc::Global;

/// The text of the rod of the line through the point with the direction, in the rod frame.
pub fn along_line_text(
    alloc: Global,
    group: &Group,
    direction: Direction,
    basis: RodBasis,
    point: [Part; 3],
) -> Result<Vec<u8>, Obstacle>
    requires { IsVectorWithin largest_entry (parts point) }
    ensures text { IfOk result (λ text. (g : Listing) → IsGroupOf g group.now →
        Answers g
        (along_line (direction_of direction) (parts basis.a) (parts basis.b) (parts point))
        text.items) }
    ensures obstacle { IfErr result (IsGroupsObstacle group.now
        (along_line (direction_of direction) (parts basis.a) (parts basis.b) (parts point))) }
{
    let frame = RodFrame::make(group, direction, basis)?;
    let rod = rod_at(alloc, group, &frame, point)?;
    Ok(rod_text(alloc, &rod)?)
}
