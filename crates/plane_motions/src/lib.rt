// Motions of the plane, and which motions of space are such: those that leave the third axis as it is.
//
// Promises to the crates above: `Motion2` meets the laws of `Motion`. `flat` gives the motion of the plane that a
// motion of space is, exactly where it is one. Products of motions of the plane are those of what they are in space.
#![tactic(auto)]

mod laws;
mod plane_motion;
mod space;
#[cfg(test)]
mod tests;

pub use laws::product_of_plane_motions;
pub use plane_motion::Motion2;
pub use space::flat;
