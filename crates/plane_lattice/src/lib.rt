// Frames of an orientation of planes: vectors a and b that span the planes, and tau that leads from one plane to the
// next of the same kind.
//
// Promises to the crates above: `Frame::make` gives exactly the frames of a group and an orientation that are not
// skewed, with the period and the vector c', and else names what is wrong; `coords` gives coordinates in a frame, and
// `DualBasis` those in any three vectors; motions are taken modulo the plane lattice, and `home` brings each to the one
// at home; `section` tells what a motion does to a plane, as a motion of a layer, exactly where it maps the plane to
// itself.
#![tactic(auto)]

mod coordinates;
mod dual_basis;
mod frame;
mod frame_tests;
mod images;
mod laws;
mod make;
mod means;
mod sections;
mod skews;
mod space;
#[cfg(test)]
mod tests;

pub use coordinates::{floor, without};
pub use dual_basis::DualBasis;
pub use frame::Frame;
pub use images::image;
pub use laws::{
    general_section_by_list, mean_is_above, one_frame_fault, one_general_section, section_by_list,
    section_of_height, seen_once, special_in_steps,
};
pub use make::{has_vectors, spans_lattice};
pub use skews::turns_far;
