// Slabs between two planes of an orientation: the operations of a space group that map one to itself.
//
// Promises to the crates above: a motion maps a slab to itself, every rational point of it, exactly where it maps the
// plane in the middle to itself (`stabiliser_by_middle`); so `slab_at` lists the members of a group that map a slab to
// itself, once each modulo the plane lattice (`slab_lists`), or says that the middle has numbers that are too large;
// `middle` gives the height of that plane; `is_empty` tells that low is above high, which is where no point lies in the
// slab (`empty_by_heights`).
//
//     if is_empty(low, high) { .. }
//     let ops = slab_at(alloc, &scan, low, high)?;
#![tactic(auto)]

mod at;
mod heights;
mod laws;
#[cfg(test)]
mod tests;

pub use at::slab_at;
pub use heights::{is_empty, middle};
pub use laws::{empty_by_heights, slab_by_middle, slab_lists, stabiliser_by_middle};
