// Space groups from what is listed: the translation lattice, and the operations modulo it.
//
// Promises to the crates above: a `Lattice` has exactly the residues of the lattice that its vectors make, and a
// `Group` is a group modulo its lattice, made exactly from the lists that are one, and else the first cause is named.
// `Group::generated` makes the group that listed operations generate, with one operation for each of its matrices, in
// order; or it names the first cause why there is none.
//
//     let group = Group::make(alloc, listed)?;
//     // Group::generated(alloc, listed)? where the list has no more than generators (`listed.generated`).
//     let home = group.lattice().home(&group.ops()[0]);
#![tactic(auto)]

mod derived;
mod generated_error;
mod generated_lattice;
mod generated_laws;
#[cfg(test)]
mod generated_tests;
mod group;
mod group_error;
mod group_shifts;
mod lattice;
mod lattice_fault;
mod laws;
mod matrices;
mod residues;
mod shifts;
#[cfg(test)]
mod tests;
mod translations;

pub use generated_error::GeneratedError;
pub use generated_laws::{
    derived_listing, generated_by_single_shifts, generated_is_group, generated_translations,
    group_of_derived_listing, no_generated_and_error, one_derived_list, one_generated_error,
};
pub use group::{Group, MAX_ENTRY, MAX_OPERATIONS};
pub use group_error::GroupError;
pub use lattice::{Lattice, MAX_RESIDUES};
pub use lattice_fault::LatticeFault;
pub use laws::{no_group_and_error, one_group_error, own_group};
pub use matrices::MAX_MATRICES;
