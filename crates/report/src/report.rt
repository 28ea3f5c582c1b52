// The report of an orientation of planes.
ghost use Rattle.std.specs.Prelude.{All};
ghost use Rattle.symmetry.specs.Scans.{IsInPeriod};
ghost use Rattle.scanning.specs.HeightView.{IsInHalves};
ghost use Rattle.report.specs.SectionView.{levels_of_sections};

use fractions::Ratio;
use motions::Motion3;
use plane_lattice::Frame;
use recognition::Found;

/// A sectional layer group: the operations that map a plane to itself, each at home in the frame of the report, and the first
/// bounded change that carries it onto a layer type, where there is one (International Tables, Volume E).
#[derive(Debug, Drop)]
pub struct Section {
    pub ops: Vec<Motion3>,
    pub found: Option<Found>,
}

/// A special height, the number of its orbit, counted from 1, and its sectional layer group.
#[derive(Debug, Drop)]
pub struct HeightSection {
    pub s: Ratio,
    pub orbit: u32,
    pub section: Section,
}

/// What the program reports of an orientation of planes in a frame: the operations that map every plane to itself, and the
/// special heights from 0 to below the period, rising, each with its orbit and the operations at it.
///
/// `planes` is the number of heights from 0 to below the period in the orbit of a general height.
#[derive(Debug, Drop)]
pub struct Report {
    pub frame: Frame,
    pub planes: u32,
    pub general: Section,
    pub heights: Vec<HeightSection>,
    pub ghost in_period: { All (IsInPeriod frame.period.0) (levels_of_sections heights.items) },
    pub ghost halves: { All IsInHalves (levels_of_sections heights.items) },
}
