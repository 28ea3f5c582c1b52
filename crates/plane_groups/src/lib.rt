// Plane groups as groups of space: those that leave the third axis as it is.
//
// Promises to the crates above: what lists flat operations, with centring vectors in the plane, is a plane group
// (`flat_group`), and so is what they generate (`flat_group_of_generators`), as it is listed and as the `Group` that is
// made of it. The residues of such a `Group` lie in the plane too (`listing_of_flat_group`). So a contract that asks for
// `IsFlatGroup (group_listing group)` is met by each group that is read as pairs.
#![tactic(auto)]

mod laws;

pub use laws::{flat_group, flat_group_of_generators, listing_of_flat_group};
