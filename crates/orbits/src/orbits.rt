// The orbits of the special heights, and the planes in the orbit of a general one.
ghost use Rattle.std.specs.Prelude.{IfOk};
ghost use Rattle.symmetry.specs.Groups.{Listing};
ghost use Rattle.symmetry.specs.Orbits.{AreOrbitNumbers, IsPlaneCount};
ghost use Rattle.symmetry.specs.Vectors.{dot};
ghost use Rattle.motions.specs.Views.{parts, row_of};
ghost use Rattle.closure.specs.Groups.{group_listing, IsGroupOf};
ghost use Rattle.scanning.specs.HeightView.{heights_of_specials};
ghost use Rattle.plane_lattice.specs.FrameOf.{HasFrame};

use crate::height_motions::height_motions;
use crate::numbers::orbit_numbers;
use closure::Group;
use scanning::Scan;
use std::alloc::{AllocError, Global};

/// Memory ran out.
pub type NoMemory = AllocError;

/// The orbits of the planes of an orientation.
///
/// `of` has the number of the orbit of each special height, from 1 in the order of first appearance. `planes` is how many
/// planes from 0 to below the period are in the orbit of a general height, the same for each.
#[derive(Debug, Drop)]
pub struct Orbits {
    pub of: Vec<u32>,
    pub planes: u32,
}

/// The orbits of the planes of a scan under the group, whichever way it is listed. Two planes are in one orbit where an operation of the group takes
/// every point of the one to a point of the other.
///
/// The scan's frame is one of the group.
pub fn height_orbits(alloc: Global, scan: &Scan, group: &Group) -> Result<Orbits, NoMemory>
    requires { HasFrame (group_listing group.now) scan.now.frame }
    ensures numbers { (g : Listing) → IsGroupOf g group.now → IfOk result (λ orbits.
        AreOrbitNumbers g (row_of scan.now.frame.plane)
        (heights_of_specials scan.now.special.items) orbits.of.items) }
    ensures planes { let r = row_of scan.now.frame.plane in
        (g : Listing) → IsGroupOf g group.now →
        IfOk result (λ orbits. IsPlaneCount g r (dot r (parts scan.now.frame.tau)) orbits.planes) }
{
    let motions = height_motions(alloc, group, &scan.frame)?;
    let of = orbit_numbers(alloc, &scan.special, &motions, &scan.frame)?;
    let planes = motions.len() as u32;
    Ok(Orbits { of, planes })
}
