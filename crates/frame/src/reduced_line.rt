// The line of the reduced frame of a group.
ghost use Rattle.std.specs.Prelude.{◌≡◌, IfErr, IfOk};
ghost use Rattle.symmetry.specs.Groups.{Listing};
ghost use Rattle.motions.specs.Views.{row_of};
ghost use Rattle.closure.specs.Groups.{IsGroupOf};
ghost use Rattle.frame.specs.Answers.{IsFrameAnswer, refusal_of_reduction};
ghost use Rattle.frame.specs.Causes.{IsGroupsObstacle};

use closure::Group;
use motions::Miller;
use reduction::{ReductionFault, reduced_frame};
use report::frame_line;
use requests::{Obstacle, Refusal};
use std::alloc::Global;

/// The refusal of a reduced frame.
fn refusal_of(fault: ReductionFault) -> Refusal
    ensures { result ≡ refusal_of_reduction fault }
{
    match fault {
        ReductionFault::OutOfRange => Refusal::FrameLimit,
        ReductionFault::Skewed => Refusal::SkewFrame,
    }
}

/// The line of the reduced frame of the group and the orientation.
pub fn reduced_line(alloc: Global, group: &Group, plane: Miller) -> Result<Vec<u8>, Obstacle>
    ensures text { IfOk result (λ text. (g : Listing) → IsGroupOf g group.now →
        IsFrameAnswer g (row_of plane) text.items) }
    ensures obstacle { IfErr result (IsGroupsObstacle group.now (row_of plane)) }
{
    match reduced_frame(group, plane) {
        Ok(frame) => Ok(frame_line(alloc, &frame)?),
        Err(fault) => Err(Obstacle::Refused(refusal_of(fault))),
    }
}
