// The frieze type of a line of a plane group: what the motions that keep the line do along it, and the first
// change of origin that carries them onto one of the seven frieze types.
//
// Promises to the crates above: `LineOp` meets the laws of `Motion`, and `LineOpShifts` those of `Quotient`.
// `frieze_type` gives, of a section along a line, the first change onto a type, in the order of the types and then
// of the origins, for the infinite sets that the section and the type stand for. Such a change there always is.
// `is_section` tells which lists are such sections. No memory is taken.
#![tactic(auto)]

mod found_frieze;
mod line_op;
mod line_shifts;
mod recognise;
mod section;
#[cfg(test)]
mod tests;

pub use found_frieze::{FoundFrieze, GRID};
pub use line_op::{EDGE, LineOp};
pub use line_shifts::LineOpShifts;
pub use recognise::frieze_type;
pub use section::is_section;
