// Special heights with the numbers of their orbits and the types of their sections.
ghost use Rattle.std.specs.Prelude.{◌≡◌, IfOk, map};
ghost use Rattle.std.specs.List.{zip};
ghost use Rattle.report.specs.Numbered.{numbered};

use crate::at::NoMemory;
use crate::report::{HeightSection, Section};
use recognition::Found;
use scanning::Height;
use std::alloc::Global;

/// The special heights, each with the number of its orbit and what was found of its section.
pub(crate) fn numbered(
    alloc: Global,
    special: Vec<Height>,
    orbits: Vec<u32>,
    types: Vec<Option<Found>>,
) -> Result<Vec<HeightSection>, NoMemory>
    ensures { IfOk result
        (λ sections. sections.items
        ≡ map numbered (zip special.items (zip orbits.items types.items))) }
{
    special
        .into_iter()
        .zip(orbits.into_iter().zip(types))
        .map(|(Height { s, ops, .. }, (number, found))| HeightSection {
            s,
            orbit: number,
            section: Section { ops, found },
        })
        .collect(alloc)
}
