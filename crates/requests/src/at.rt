// The operations that map one plane to itself.
ghost use Rattle.std.specs.Prelude.{IfErr, IfOk};
ghost use Rattle.fractions.specs.FractionOf.{fraction_of};
ghost use Rattle.motions.specs.BasisView.{basis_of};
ghost use Rattle.motions.specs.Views.{row_of};
ghost use Rattle.symmetry.specs.Groups.{Listing};
ghost use Rattle.closure.specs.Groups.{IsGroupOf};
ghost use Rattle.requests.specs.Answers.{Answers};
ghost use Rattle.requests.specs.Causes.{IsGroupsObstacle};
ghost use Rattle.requests.specs.Limits.{IsHeightInRange};
ghost use Rattle.requests.specs.Questions.{at_height};

use crate::obstacle::Obstacle;
use closure::Group;
use fractions::Ratio;
use motions::{Basis, Miller};
use plane_lattice::Frame;
use report::at_text;
use scanning::Scan;
use std::alloc::Global;

/// The text of the operations that map the plane of the height s to itself, in the frame.
pub fn height_text(
    alloc: Global,
    group: &Group,
    plane: Miller,
    basis: Basis,
    s: Ratio,
) -> Result<Vec<u8>, Obstacle>
    requires { IsHeightInRange (fraction_of s) }
    ensures text { IfOk result (λ text. (g : Listing) → IsGroupOf g group.now →
        Answers g (at_height (row_of plane) (basis_of basis) (fraction_of s)) text.items) }
    ensures obstacle { IfErr result
        (IsGroupsObstacle group.now (at_height (row_of plane) (basis_of basis) (fraction_of s))) }
{
    let frame = Frame::make(group, plane, basis)?;
    let scan = Scan::make(alloc, group, &frame)?;
    let operations = scan.ops_at(alloc, s)?;
    Ok(at_text(alloc, s, &operations)?)
}
