// Runs of the program as values: its words, its whole input, and all that it writes.
//
// Promises to tests: each case is as its table has it. All were worked by hand from docs/DEFINITIONS.md,
// and none was taken from what the program wrote.
#![tactic(auto)]

mod case;
mod cif;
mod generators;
mod heights;
mod images;
mod inputs;
mod plane_lines;
mod refused_frames;
mod refused_groups;
mod refused_lines;
mod refused_words;
mod reports;
mod rods;
mod samples;
mod slabs;
mod surveys;
mod topic;
mod types;
mod unusual_reports;

pub use case::Case;
pub use inputs::{INVERSION, INVERSION_REPORT};
pub use topic::{TOPICS, Topic, cases};
