// The images of an orientation.
ghost use Rattle.std.specs.Prelude.{IfErr, IfOk};
ghost use Rattle.motions.specs.Views.{row_of};
ghost use Rattle.symmetry.specs.Groups.{Listing};
ghost use Rattle.closure.specs.Groups.{IsGroupOf};
ghost use Rattle.requests.specs.Answers.{Answers};
ghost use Rattle.requests.specs.Causes.{IsGroupsObstacle};
ghost use Rattle.requests.specs.Questions.{image_rows};

use crate::obstacle::Obstacle;
use closure::Group;
use motions::Miller;
use orbits::orientations;
use report::images_text;
use std::alloc::Global;

/// The text of the images of the orientation.
pub fn orientations_text(alloc: Global, group: &Group, plane: Miller) -> Result<Vec<u8>, Obstacle>
    ensures text { IfOk result (λ text. (g : Listing) → IsGroupOf g group.now →
        Answers g (image_rows (row_of plane)) text.items) }
    ensures obstacle { IfErr result (IsGroupsObstacle group.now (image_rows (row_of plane))) }
{
    let images = orientations(alloc, group, plane)?;
    Ok(images_text(alloc, &images)?)
}
