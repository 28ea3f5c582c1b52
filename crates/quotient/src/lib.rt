// Motions modulo shifts: a group of motions is told by a finite list and the shifts that go with it.
//
// Promises to the crates above: the laws of `Motion` and of `Quotient`, which each implementation proves. Sameness
// modulo shifts is an equivalence, and equality of `home`. `check_group` accepts exactly the lists that are a group
// modulo shifts, and names the first thing that is wrong with any other, as does `check_group_by_homes` where the
// homes are known; `find` gives the first that is the same, and `distinct` the first of each. The definitions of a
// closure of generators, of the order in which a type lists its motions and of a table of types stand here too, with
// tests of them that compute.
#![tactic(auto)]

mod check;
mod laws;
mod lists;
#[cfg(test)]
mod tests;
mod traits;

pub use check::{GroupFault, check_group, check_group_by_homes};
pub use laws::{
    first_motions, members_are_a_group, products_respect_sameness, sameness_is_an_equivalence,
};
pub use lists::{NoMemory, distinct, find, homes};
pub use traits::{Motion, Quotient};
