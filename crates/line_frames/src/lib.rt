// Frames of the lines h x + k y = s of a plane group.
//
// A plane group is read as a group of space whose operations leave the third axis as they find it, and a line (h k) of it
// as the plane (h k 0).
//
// Promises to the crates above: `line_frame` gives the frame of the lines of each plane group and each direction. The
// vector a is the lexicographically greater of the two that the lattice repeats along the lines, tau leads from one line
// to the next of the same kind and lies from 0 to below a in the first coordinate in which a is not 0, and b is the edge
// along the third axis or its opposite. It is a frame of the planes, which may be skewed.
#![tactic(auto)]

mod directions;
mod frame;
mod means;
mod members;
#[cfg(test)]
mod tests;

pub use frame::line_frame;
