// Recognition of a section: the first change of basis and origin that carries it onto one of the 80 layer types, or, along
// a line, onto one of the 75 rod types.
//
// Promises to the crates above: `fits` tells exactly whether a bounded change carries a section onto a type, for the
// infinite sets that both stand for; `first_origin` gives the least origin for a type and a matrix; `layer_type` gives
// the first change in the order of changes, and None exactly where there is none. All count the origins that they
// judge, and stay within a number for each pair of a type and a matrix that agrees with the section. `rod_type` gives the
// first change of a section along a line, and None exactly where there is none.
//
//     let mut steps: Steps<L> = Steps::new(blank);
//     let found = layer_type(alloc, &section, &mut steps)?;
//     // The section of Pnma along b at the height 1/4: number 29, p [[0, 1], [1, 0]], x 0, y 144.
#![tactic(auto)]

mod agreement;
mod change;
mod classes;
mod conditions;
mod found;
mod found_rod;
mod laws;
mod least;
mod line;
mod listed;
mod matrices;
mod origins;
mod recognise;
mod rod_kinds;
mod rod_laws;
mod rod_matrices;
mod rod_origins;
mod rod_pairs;
mod rod_search;
#[cfg(test)]
mod rod_tests;
mod rods;
mod steps;
#[cfg(test)]
mod tests;

pub use found::{Found, GRID};
pub use found_rod::{FoundRod, ROD_GRID};
pub use laws::{agreement_by_tests, carries_by_tests};
pub use origins::{first_origin, fits};
pub use recognise::{NoMemory, layer_type};
pub use rod_laws::carries_by_listed;
pub use rod_matrices::{determinant, hand};
pub use rod_origins::least_origin;
pub use rod_pairs::carries;
pub use rods::rod_type;
pub use steps::Steps;
