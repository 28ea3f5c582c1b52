// The definitions of the subject, over records of whole numbers, and the theorems that speak of definitions alone,
// each the contract of a public function with an empty body.
//
// Promises to the crates above: the words that every contract cites, after International Tables for
// Crystallography, Volume A (coordinate triplets) and Volume E (sectional layer groups).
#![tactic(auto)]

mod frames;
mod groups;
mod listings;
mod lists;
mod orbits;
mod planes;
mod scans;

pub use frames::{
    difference_in_plane, frame_gives, mean_is_kept, period_agrees, special_by_listed,
};
pub use groups::{group_by_listed, lattice_in_group, lattice_is_group, sameness_is_equivalence};
pub use listings::{
    alike_frames, alike_groups, alike_is_equivalence, alike_lists, alike_orbits, alike_scans,
};
pub use lists::{lists_agree, lists_by_rows, lists_in_plane, one_for_each_listed, one_is_at_home};
pub use orbits::{orbit_by_listed, orbits_are_classes, orbits_by_height_motions};
pub use planes::{image_by_row, plane_by_row, special_by_row, stabiliser_by_rows};
pub use scans::{scan_gives, stands_once};
