// The lines of an orientation of a plane group, height by height.
use fractions::{Part, Ratio};
use friezes::FoundFrieze;
use plane_motions::Motion2;

/// The section of a plane group along a line: the motions that map the line to itself, each at home in the frame of the
/// lines, and the first change that carries what they do along it onto a frieze type (International Tables, Volume E).
#[derive(Debug, Drop)]
pub struct LineSection {
    pub ops: Vec<Motion2>,
    pub found: FoundFrieze,
}

/// A special height, counted in steps of the indices: the line h x + k y = s, and its section.
#[derive(Debug, Drop)]
pub struct LineHeight {
    pub s: Ratio,
    pub section: LineSection,
}

/// What is told of the lines h x + k y = s of a plane group: the section of a general line, and the special heights from 0
/// to below the period, rising, with the section of each.
///
/// The vector `a` leads along the lines, and `tau` to the next line of the same kind, which is a period higher. Both and
/// the period are counted in parts. `c` is the vector c', the mean of e W tau over the scanning operations, counted in cell
/// edges.
#[derive(Debug, Drop)]
pub struct LineScan {
    pub h: i64,
    pub k: i64,
    pub a: [Part; 2],
    pub tau: [Part; 2],
    pub period: Part,
    pub c: [Ratio; 2],
    pub general: LineSection,
    pub heights: Vec<LineHeight>,
}
