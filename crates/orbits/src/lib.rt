// What the operations of a group do to orientations of planes and to planes: their orbits.
//
// Promises to the crates above: `height_orbits` numbers the orbits of the special heights, and counts the planes in the
// orbit of a general one; `orientations` gives the rows (hkl) W of the operations, each once, or says that one is too wide.
#![tactic(auto)]

mod height_motion;
mod height_motions;
mod numbers;
mod orbit_fault;
mod orbits;
mod rows;
#[cfg(test)]
mod tests;

pub use orbit_fault::OrbitFault;
pub use orbits::{NoMemory, Orbits, height_orbits};
pub use rows::{WIDE, orientations, orientations_of_first_operations};
