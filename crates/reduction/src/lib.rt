// Reduced frames: the frame of a group and an orientation of planes that is taken where none is given.
//
// Promises to the crates above: what `reduced_frame` gives is a frame of the group and the orientation, as `Frame::make`
// gives it, whose vectors are at most 1000 cell edges in each entry and reduced: with Q(u,v) the sum of (W u).(W v) over
// the scanning operations, 2 |Q(a,b)| <= Q(a,a) <= Q(b,b), and no tau + i a + j b with i and j from -1 to 1 is shorter
// than tau. A fault comes only with such a frame that is out of range, or skewed.
#![tactic(auto)]

mod adapted;
mod bezout;
mod form;
mod handedness;
mod lattice_basis;
mod leading;
mod reduced;
mod sense;
mod shorten;
#[cfg(test)]
mod tests;

pub use reduced::{ReductionFault, reduced_frame};
