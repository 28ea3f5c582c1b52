// The lines of a plane group, height by height, with the frieze type of each.
//
// A plane group is read as a group of space whose operations leave the third axis as they find it, and a line (h k) of it
// as the plane (h k 0). `line_as_plane` and `line_stabilisers_as_plane_stabilisers` say why that may be done.
//
// Promises to the crates above: `lines` puts every height into one class, general or that of one special height. It
// lists the motions of the plane group that map a line of the class to itself, once each modulo the translations along the
// lines, and gives the first change that carries what they do along the line onto one of the seven frieze types. All of
// this is told over points of the plane and the plane group, in `specs/`, without the group of space.
//
//     let plane = Miller::make(0, 1, 0)?;
//     let scan = lines(alloc, &group, plane)?;
//     for height in &scan.heights {
//         println!(rt; "{} {}", height.s, height.section.found.number)?;
//     }
#![tactic(auto)]

mod laws;
mod make;
mod scan;
mod section;
#[cfg(test)]
mod tests;
mod viewpoint;

pub use laws::{line_as_plane, line_stabilisers_as_plane_stabilisers};
pub use make::lines;
pub use scan::{LineHeight, LineScan, LineSection};
pub use section::NoMemory;
