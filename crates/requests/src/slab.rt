// The operations that map a slab to itself.
ghost use Rattle.std.specs.Prelude.{IfErr, IfOk};
ghost use Rattle.fractions.specs.FractionOf.{fraction_of};
ghost use Rattle.motions.specs.BasisView.{basis_of};
ghost use Rattle.motions.specs.Views.{row_of};
ghost use Rattle.symmetry.specs.Groups.{Listing};
ghost use Rattle.closure.specs.Groups.{IsGroupOf};
ghost use Rattle.requests.specs.Answers.{Answers};
ghost use Rattle.requests.specs.Causes.{IsGroupsObstacle};
ghost use Rattle.requests.specs.Questions.{between_heights};
ghost use Rattle.requests.specs.SlabLimits.{IsSlabInRange};

use crate::obstacle::Obstacle;
use closure::Group;
use fractions::Ratio;
use motions::{Basis, Miller};
use plane_lattice::Frame;
use report::slab_text;
use scanning::Scan;
use slabs::slab_at;
use std::alloc::Global;

/// The text of the operations that map the slab from low to high to itself, in the frame.
pub fn between_heights_text(
    alloc: Global,
    group: &Group,
    plane: Miller,
    basis: Basis,
    low: Ratio,
    high: Ratio,
) -> Result<Vec<u8>, Obstacle>
    requires { IsSlabInRange (fraction_of low) (fraction_of high) }
    ensures text { IfOk result (λ text. (g : Listing) → IsGroupOf g group.now →
        Answers g
        (between_heights (row_of plane) (basis_of basis) (fraction_of low) (fraction_of high))
        text.items) }
    ensures obstacle { IfErr result (IsGroupsObstacle group.now
        (between_heights (row_of plane) (basis_of basis) (fraction_of low) (fraction_of high))) }
{
    let frame = Frame::make(group, plane, basis)?;
    let scan = Scan::make(alloc, group, &frame)?;
    let operations = slab_at(alloc, &scan, low, high)?;
    Ok(slab_text(alloc, low, high, &operations)?)
}
