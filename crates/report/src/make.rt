// The report of a group, an orientation and a frame.
ghost use Rattle.std.specs.Prelude.{◌≡◌, ◌<◌, IfOk, length};
ghost use Rattle.symmetry.specs.Groups.{Listing};
ghost use Rattle.closure.specs.Groups.{IsGroupOf};
ghost use Rattle.plane_lattice.specs.FrameOf.{IsMadeFor};
ghost use Rattle.report.specs.ReportView.{IsReportOf};
ghost use Rattle.report.specs.Shown.{Shows};

use crate::at::NoMemory;
use crate::numbered::numbered;
use crate::recognised::{general_type, special_types};
use crate::report::{Report, Section};
use closure::Group;
use orbits::{Orbits, height_orbits};
use plane_lattice::Frame;
use recognition::{Found, Steps};
use scanning::Scan;
use std::alloc::Global;
use std::marker::Brand;
use std::sync::ledger::{Blank, Ledger};

impl Report {
    ghost use Rattle.std.specs.Prelude.{IfOk};
    ghost use Rattle.symmetry.specs.Groups.{Listing};
    ghost use Rattle.closure.specs.Groups.{IsGroupOf};
    ghost use Rattle.plane_lattice.specs.FrameOf.{IsMadeFor};
    ghost use Rattle.report.specs.ReportView.{IsReportOf};

    /// The report of the group in the frame, however the group is listed: its scan, with the number of the orbit of each
    /// special height, the number of planes in the orbit of a general one, and the first bounded change of each section.
    ///
    /// The frame is one that [`Frame::make`] gives for this group (International Tables, Volume E, part 5).
    pub fn make(alloc: Global, group: &Group, frame: &Frame) -> Result<Report, NoMemory>
        requires { IsMadeFor group.now frame.now }
        ensures { (g : Listing) → IsGroupOf g group.now → IfOk result (IsReportOf g frame.now) }
    {
        recognised::<Brand>(alloc, group, frame, Blank::new(1))
    }
}

// The same, with an own count of the origins that recognition judges.
fn recognised<L: Ledger>(
    alloc: Global,
    group: &Group,
    frame: &Frame,
    blank: Blank,
) -> Result<Report, NoMemory>
    requires made { IsMadeFor group.now frame.now }
    requires name { blank.name ≡ L.name }
    requires parts { blank.parts ≡ L.parts }
    requires some { 0 < blank.parts }
    ensures { (g : Listing) → IsGroupOf g group.now → IfOk result (IsReportOf g frame.now) }
{
    let mut steps: Steps<L> = Steps::new(blank);
    let scan = Scan::make(alloc, group, frame)?;
    let orbits = height_orbits(alloc, &scan, group)?;
    let general = general_type(alloc, group, frame, &scan.general, &mut steps)?;
    let types = special_types(alloc, group, frame, &scan.special, &mut steps)?;
    show(alloc, scan, orbits, general, types)
}

// The report that shows a scan, the orbits of its special heights, and what was found of the sections.
fn show(
    alloc: Global,
    scan: Scan,
    orbits: Orbits,
    general: Option<Found>,
    types: Vec<Option<Found>>,
) -> Result<Report, NoMemory>
    requires orbits { length orbits.of.items ≡ length scan.special.items }
    requires types { length types.items ≡ length scan.special.items }
    ensures { IfOk result (Shows scan orbits.of.items orbits.planes general types.items) }
{
    Ok(Report {
        frame: scan.frame,
        planes: orbits.planes,
        general: Section {
            ops: scan.general,
            found: general,
        },
        heights: numbered(alloc, scan.special, orbits.of, types)?,
    })
}
