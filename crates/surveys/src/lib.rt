// Surveys of a space group: one orientation of planes of each class of equivalent ones.
//
// Promises to the crates above: `survey` lists the orientations with indices at most n in size, of each class of
// equivalent ones the lexicographically greatest, with the number of triples in the class and the number of special
// heights in a period. To be equivalent is an equivalence (`orientation_classes`), and each orientation is equivalent
// to exactly one of the list (`one_representative`).
//
//     for surveyed in &survey(alloc, &group, 2)? { .. }
#![tactic(auto)]

mod images;
mod laws;
mod periods;
mod places;
mod representatives;
mod rows;
mod shifts;
mod surveyed;
mod surveying;
#[cfg(test)]
mod tests;

pub use laws::{one_representative, orientation_classes};
pub use surveyed::Surveyed;
pub use surveying::{NoMemory, survey};
