// A large valid job from a number: the groups of the sample are those of the layer types, in changing coordinates, and
// what is counted over their reports is the same at each run.
//
// Promises to the crates above: `sample` gives exactly the counts over the reports of the groups below n, and refuses
// none of them; `counts_text` writes exactly their text.
#![tactic(auto)]

mod counts;
mod frame;
mod group;
mod reports;
mod shear;
#[cfg(test)]
mod tests;

pub use counts::{Counts, NoMemory, counts_text};
pub use reports::sample;
