// What is told of a line.
use crate::frame::RodFrame;
use fractions::Part;
use motions::Motion3;
use recognition::FoundRod;

/// The operations that map the line through a point to itself, at home in the frame, and the first change of their section
/// onto a rod type.
#[derive(Debug, Drop)]
pub struct Rod {
    pub frame: RodFrame,
    pub point: [Part; 3],
    pub ops: Vec<Motion3>,
    pub found: Option<FoundRod>,
}
