// The text of the lines of a plane group.
//
// Promise to the crate above: `lines_text` writes exactly the text of a scan of lines: the frame of the lines, the section
// of a general line, and that of the lines at each special height.
//
//     let text = lines_text(alloc, &scan)?;
#![tactic(auto)]

mod lines;
mod named;
mod named_lines;
#[cfg(test)]
mod tests;
mod text;
mod written;

pub use text::{NoMemory, lines_text};
