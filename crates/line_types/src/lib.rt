// The 75 rod types and the 7 frieze types, each with its operations modulo the lattice along its line, and the lattices
// as shifts that motions are taken modulo.
//
// Promises to the crates above: `rod` and `frieze` give exactly the types of the numbers, each with its symbol; its
// operations with the lattice are exactly the closure of the generators in the defining table, each once and in order,
// small, and with matrices that differ; `RodShifts` and `FriezeShifts` meet the laws of `Quotient`.
#![tactic(auto)]

mod frieze_shifts;
mod friezes;
mod hexagonal_high;
mod hexagonal_low;
mod monoclinic;
mod motion;
mod orthorhombic;
mod rod_shifts;
mod rods;
#[cfg(test)]
mod tests;
mod tetragonal;
mod trigonal;

pub use frieze_shifts::FriezeShifts;
pub use friezes::{FriezeType, frieze};
pub use rod_shifts::RodShifts;
pub use rods::{RodType, rod};
