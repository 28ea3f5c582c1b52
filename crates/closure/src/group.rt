// A space group: operations, each once modulo the translation lattice.
ghost use Rattle.std.specs.Prelude.{◌≡◌, ◌≤◌, ◌↔◌, All, IfErr, IfOk, IsTrue, length, map, vec_len};
ghost use Rattle.quotient.specs.Lists.{AreFirst};
ghost use Rattle.symmetry.specs.Groups.{IsGroup, IsInLattice, IsMember, SameModulo};
ghost use Rattle.symmetry.specs.Motions.{Motion as MotionOfSpace};
ghost use Rattle.motions.specs.ListedSizes.{IsListedSmall};
ghost use Rattle.motions.specs.Views.{listing_of, motion_of, parts};
ghost use Rattle.closure.specs.Lattices.{IsLatticeOf};
ghost use Rattle.closure.specs.Operations.{listing_with, AreApart, HasSmallEntries, HoldsTranslations};

use crate::derived::{first_singular, in_order};
use crate::generated_error::GeneratedError;
use crate::generated_lattice::generated_lattice;
use crate::group_error::GroupError;
use crate::lattice::Lattice;
use crate::matrices::generated_matrices;
use crate::residues::lists_residue;
use crate::translations::listed_lattice;
use fractions::Part;
use motions::{Listed, Motion3};
use quotient::{check_group_by_homes, distinct, homes};
use std::alloc::{AllocError, Global};

/// How many operations may be listed.
pub const MAX_OPERATIONS: usize = 192;

/// How large a matrix entry of an operation may be.
pub const MAX_ENTRY: i64 = 50;

/// A space group: its operations, each once modulo its translation lattice.
///
/// There are at most [`MAX_OPERATIONS`](crate::MAX_OPERATIONS) of them, with matrix entries at most
/// [`MAX_ENTRY`](crate::MAX_ENTRY) in size.
#[derive(Debug, Drop)]
pub struct Group {
    ops: Vec<Motion3>,
    lattice: Lattice,
    pub ghost group: { ∥ IsGroup (listing_with ops.items lattice) ∥₁ },
    pub ghost apart: { AreApart (listing_with ops.items lattice) },
    pub ghost translations: { HoldsTranslations (listing_with ops.items lattice) lattice },
    pub ghost small: { All HasSmallEntries (map motion_of ops.items) },
    pub ghost few: { vec_len ops ≤ 192 },
}

impl Group {
    ghost use Rattle.closure.specs.declared.group_error.GroupError.TheVariants.{NoMemory};
    ghost use Rattle.closure.specs.declared.generated_error.GeneratedError.TheVariants.{NoMemory as NothingLeft};
    ghost use Rattle.closure.specs.Derived.{GeneratesWithinLimits, IsGeneratedError};
    ghost use Rattle.closure.specs.Generated.{IsDerivedListing, IsGenerated};
    ghost use Rattle.closure.specs.GroupErrors.{IsGroupError, IsWithinLimits};
    ghost use Rattle.closure.specs.Fineness.{IsTooFine};
    ghost use Rattle.closure.specs.Groups.{group_listing, lattice_of, IsGroupOf};

    /// The group of what is listed: all products of the listed operations and the translations of the lattice.
    ///
    /// The lattice is that of the cell edges, the centring vectors and the listed translations. A motion that is the
    /// same as an earlier one modulo the lattice is left out. The motions are small, with matrix entries at most
    /// [`MAX_ENTRY`](crate::MAX_ENTRY) in size, and the centring vectors have entries of at most 2^40 parts.
    ///
    /// It is made exactly where the listed operations are a group modulo the lattice. The error is the first that
    /// stands in [`GroupError`], and a fault the first that stands in [`GroupFault`](quotient::GroupFault).
    pub fn make(alloc: Global, listed: Listed) -> Result<Group, GroupError>
        requires { IsListedSmall 50 listed }
        ensures limits { IfOk result (λ _. IsWithinLimits (listing_of listed)) }
        ensures made { IfOk result (IsGroupOf (listing_of listed)) }
        ensures accepted { IsWithinLimits (listing_of listed) → IsGroup (listing_of listed)
            → IfErr result (λ error. error ≡ NoMemory) }
        ensures refused { IfErr result (IsGroupError (listing_of listed)) }
    {
        let count = listed.ops.len();
        if count > MAX_OPERATIONS {
            return Err(GroupError::TooMany(count));
        }
        let lattice = listed_lattice(alloc, &listed)?;
        let ops = first_operations(alloc, &lattice, &listed)?;
        let at_home = homes(alloc, &lattice, &ops)?;
        check_group_by_homes(&lattice, &ops, &at_home)?;
        Ok(Group { ops, lattice })
    }

    /// The group that the listed operations generate, with the translations by cell edges and centring vectors.
    ///
    /// The motions are small, with matrix entries at most 9 in size, and the centring vectors have entries of at most
    /// 2^40 parts. The operations of the group have one for each matrix, the identity first and the others with the
    /// lexicographically greatest matrix first, each with the lexicographically least translation from 0 to below
    /// [`UNIT`](fractions::UNIT).
    ///
    /// The error is the first that stands in [`GeneratedError`], and it comes exactly where it says.
    pub fn generated(alloc: Global, listed: Listed) -> Result<Group, GeneratedError>
        requires { IsListedSmall 9 listed }
        ensures limits { IfOk result (λ _. GeneratesWithinLimits (listing_of listed)) }
        ensures listing { IfOk result
            (λ group. IsDerivedListing (listing_of listed) (group_listing group)) }
        ensures members { IfOk result (λ group. (m : MotionOfSpace)
            → IsGenerated (listing_of listed) m ↔ IsMember (group_listing group) m) }
        ensures accepted { GeneratesWithinLimits (listing_of listed)
            → IfErr result (λ error. error ≡ NothingLeft) }
        ensures refused { IfErr result (IsGeneratedError (listing_of listed)) }
    {
        let given = listed.ops.len();
        if given > MAX_OPERATIONS {
            return Err(GeneratedError::TooMany(given));
        }
        if let Some(i) = first_singular(&listed.ops) {
            return Err(GeneratedError::NoInverse(i));
        }
        let list = generated_matrices(alloc, &listed)?;
        let lattice = generated_lattice(alloc, &list, &listed)?;
        let ops = in_order(alloc, &lattice, &list)?;
        Ok(Group { ops, lattice })
    }

    /// The operations, each once modulo the lattice, in the order in which they were first listed, or where they
    /// were generated with the identity first and the others with the lexicographically greatest matrix first.
    pub fn ops(&self) -> &[Motion3]
        ensures ops { map motion_of result.now ≡ (group_listing self.now).ops }
        ensures group { IsGroup (group_listing self.now) }
        ensures apart { AreApart (group_listing self.now) }
        ensures small { All HasSmallEntries (map motion_of result.now) }
        ensures few { length result.now ≤ 192 }
    {
        &self.ops
    }

    /// The translation lattice.
    pub fn lattice(&self) -> &Lattice
        ensures lattice { result.now ≡ lattice_of self.now }
        ensures same { IsLatticeOf (group_listing self.now) result.now }
        ensures fine { ¬ IsTooFine (group_listing self.now) }
    {
        &self.lattice
    }

    /// Whether the vector is in the lattice.
    pub fn has(&self, v: [Part; 3]) -> bool
        ensures { IsTrue result ↔ IsInLattice (group_listing self.now) (parts v) }
    {
        lists_residue(self.lattice.residues(), &v)
    }
}

/// The listed operations that are the same as no earlier one modulo the lattice.
fn first_operations(
    alloc: Global,
    lattice: &Lattice,
    listed: &Listed,
) -> Result<Vec<Motion3>, AllocError>
    requires small { IsListedSmall 50 listed.now }
    requires lattice { IsLatticeOf (listing_of listed.now) lattice.now }
    ensures first { IfOk result (λ ops.
        AreFirst (SameModulo (listing_of listed.now)) (listing_of listed.now).ops
        (map motion_of ops.items)) }
    ensures small { IfOk result (λ ops. All HasSmallEntries (map motion_of ops.items)) }
    ensures few { IfOk result (λ ops. vec_len ops ≤ vec_len listed.now.ops) }
{
    distinct(alloc, lattice, &listed.ops)
}
