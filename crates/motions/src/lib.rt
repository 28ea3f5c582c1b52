// Motions of space as coordinate triplets give them, motions of a layer, of a rod and of a frieze, the Miller indices of
// a plane, and what motions of space do to planes.
//
// Promises to the crates above: `Motion3`, `LayerMotion`, `RodMotion` and `FriezeMotion` meet the laws of `Motion`, with
// product and inverse exact; `triple` gives the block form of a motion of a layer, exactly where it has one in whole
// parts, and of each motion of a rod, and products are those of the block forms; `image` says what the matrix of a
// motion does to a vector; `Miller::make` gives the orientation or names what is wrong; `side` and `shift` say exactly
// what a motion does to the planes of an orientation.
#![tactic(auto)]

mod basis;
mod equality;
mod frieze;
mod inverses;
mod laws;
mod layer;
mod line;
mod listed;
mod miller;
mod motion;
mod plane_matrices;
mod products;
mod rod;
mod rows;
mod space;
#[cfg(test)]
mod tests;

pub use basis::{Basis, FrameFault, MAX_COEFFICIENT, MOST_ENTRY};
pub use frieze::FriezeMotion;
pub use laws::{limits_in_numbers, product_of_friezes, product_of_rods};
pub use layer::{LayerMotion, product_of_block_forms};
pub use listed::Listed;
pub use miller::{INDEX, Miller, PlaneFault};
pub use motion::{Motion3, Sign};
pub use rod::RodMotion;
pub use rows::{row_image, shift, side, turned_shift};
