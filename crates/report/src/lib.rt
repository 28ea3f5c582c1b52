// What the programs write: the operations at a height, those of a slab, the report of an orientation of planes, the images of
// an orientation, the survey of a group, the rod along a line, the types, and the line of a frame.
//
// Promises to the crates above: `at_text`, `slab_text`, `images_text`, `survey_text`, `rod_text`, `type_text` and `frame_line`
// write exactly these texts; `Report::make` gives the report of a group in a frame, `Report::text` writes its text, and
// `Report::json` its JSON. `report_says` is what a report says of every height, and `rod_says` what a rod says of its line.
// `generators_are_triplets` is that the tables of types name their generators by texts of the grammar.
//
//     let report = Report::make(alloc, &group, &frame)?;
//     let text = report.text(alloc)?;
//     // `plane 0 1 0`, the frame with its period and c', the block of the general planes, one of each special height, `end`.
#![tactic(auto)]

mod at;
mod frame;
mod images;
mod json;
mod laws;
mod lines;
mod make;
mod named;
mod named_lines;
mod numbered;
mod recognised;
mod report;
#[cfg(test)]
mod report_tests;
mod rod_named;
#[cfg(test)]
mod rod_tests;
mod rods;
mod slab;
mod survey;
#[cfg(test)]
mod tests;
mod text;
mod types;
mod written;

pub use at::{NoMemory, at_text};
pub use frame::frame_line;
pub use images::images_text;
pub use laws::{alike_reports, generators_are_triplets, report_says, rod_says};
pub use report::{HeightSection, Report, Section};
pub use rods::rod_text;
pub use slab::slab_text;
pub use survey::survey_text;
pub use types::{Kind, type_text};
