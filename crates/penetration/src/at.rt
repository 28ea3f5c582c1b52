// The rod of a group along a line.
ghost use Rattle.std.specs.Prelude.{IfOk};
ghost use Rattle.symmetry.specs.Sizes.{IsVectorWithin};
ghost use Rattle.motions.specs.Views.{parts};
ghost use Rattle.plane_lattice.specs.Bounds.{largest_entry};
ghost use Rattle.penetration.specs.RodFrameView.{IsRodMadeFor};
ghost use Rattle.penetration.specs.RodView.{IsRodOf};

use crate::frame::RodFrame;
use crate::members::{NoMemory, near_members};
use crate::rod::Rod;
use crate::section_lists::sections;
use closure::Group;
use fractions::Part;
use quotient::homes;
use recognition::rod_type;
use std::alloc::Global;

/// The rod of the group along the line through the point with the direction of the frame: the members that map the line to
/// itself and are at home, each once, in the order of the group's operations, and the first bounded change of their section
/// onto a rod type, or None exactly where there is none (International Tables, Volume E, penetration rod groups).
///
/// The frame is one that [`make`](RodFrame::make) gives for the group, and each entry of the point is at most 1000 cell
/// edges in size.
pub fn rod_at(
    alloc: Global,
    group: &Group,
    frame: &RodFrame,
    point: [Part; 3],
) -> Result<Rod, NoMemory>
    requires made { IsRodMadeFor group.now frame.now }
    requires point { IsVectorWithin largest_entry (parts point) }
    ensures { IfOk result (IsRodOf group.now frame.now point) }
{
    let near = near_members(alloc, group, frame, &point)?;
    let section = sections(alloc, group, frame, &near, &point)?;
    let found = rod_type(alloc, &section)?;
    let ops = homes(alloc, frame, &near)?;
    Ok(Rod {
        frame: *frame,
        point,
        ops,
        found,
    })
}
