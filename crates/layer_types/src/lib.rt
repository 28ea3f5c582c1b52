// The 80 layer types, each with its operations, and the shifts that they are taken modulo.
//
// Promises to the crates above: `layer` gives the type of a number from 1 to 80, and its operations with the lattice
// are exactly the closure of the generators in the defining table, each once and in order; `LayerShifts` meets the
// laws of `Quotient`, over the same lattices. That a row is the type of that number in International Tables, Volume E,
// is not claimed.
#![tactic(auto)]

mod hexagonal;
mod layer_type;
mod oblique;
mod operation;
mod rectangular;
mod rectangular_mmm;
mod shifts;
mod square;
#[cfg(test)]
mod tests;
mod type_table;

pub use layer_type::{LayerType, layer};
pub use shifts::LayerShifts;
