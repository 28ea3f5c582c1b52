// The planes of an orientation, height by height.
//
// Promises to the crates above: `Scan::make` puts every height into one class, general or that of one special height, with
// the list of the operations that map its plane to itself; `class_at` tells the class of a height, and `ops_at` gives the
// list there.
//
//     let scan = Scan::make(alloc, &group, &frame)?;
//     let ops = scan.ops_at(alloc, s)?;
//     // scan.general has the operations at each general height, scan.special each special height with its own.
#![tactic(auto)]

mod at;
mod at_fault;
mod class;
mod height;
mod heights;
mod homes;
mod make;
mod members;
mod periods;
mod raised;
mod scan;
#[cfg(test)]
mod tests;
mod turned;

pub use at::MOST_HEIGHT;
pub use at_fault::AtFault;
pub use class::Place;
pub use height::Height;
pub use homes::NoMemory;
pub use scan::Scan;
