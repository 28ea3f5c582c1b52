// Space groups that tests are worked over, with the motions that they list and frames of theirs.
//
// Promises to tests: each group is made by `Group::make` from the motions and the centring vectors that are named at
// it, as International Tables, Volume A, list them; `group_of` makes any other. No program calls this crate.
#![tactic(auto)]

mod frames;
mod groups;
mod operations;
mod shifts;

pub use frames::{c2_over_m_edges, cell_edges, edges_along_b};
pub use groups::{
    c2_over_m, group_of, p_1, p_3, p1, p2, p2_1_over_c, p2_12_12_1, p2_over_m, p3, p4, p4_1,
};
pub use operations::{
    FAR_INVERSION, FOURFOLD_SCREW, IDENTITY, INVERSION, MIRROR_ACROSS_C, NEXT_INVERSION, THREEFOLD,
    TURN_ABOUT_B, TURN_ABOUT_C,
};
pub use shifts::{EDGE, HALF, NONE, ORIGIN};
