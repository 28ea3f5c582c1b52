// The lattice of the group that listed operations generate.
ghost use Rattle.std.specs.Prelude.{◌≡◌, ◌<◌, ◌≤◌, ◌^◌, All, Contains, IfErr, IfOk, MatchOption, OnOk, length, map};
ghost use Rattle.symmetry.specs.Groups.{IsInLattice, Listing};
ghost use Rattle.symmetry.specs.Motions.{followed_by, Motion as MotionOfSpace};
ghost use Rattle.symmetry.specs.Sizes.{IsSmall, IsVectorWithin};
ghost use Rattle.symmetry.specs.Vectors.{minus};
ghost use Rattle.motions.specs.ListedSizes.{IsListedSmall};
ghost use Rattle.motions.specs.Views.{listing_of, motion_of, parts};
ghost use Rattle.closure.specs.Operations.{HasSmallEntries};
ghost use Rattle.closure.specs.Residues.{residue, IsResidue};
ghost use Rattle.closure.specs.Fineness.{centrings_alone};
ghost use Rattle.closure.specs.Lattices.{IsLatticeOf};
ghost use Rattle.closure.specs.Generated.{AllInvertible, GeneratesTooFine, InGeneratedLattice, IsGenerated};
ghost use Rattle.closure.specs.ClosedLists.{HasMatrixOf, IsLatticeClosed, IsMatrixClosed};
ghost use Rattle.closure.specs.Searches.{HasSame, IsDifference, IsGeneratedLatticeFault, IsMoreThan, IsMoved, IsStore, KeepsResidues};

use crate::lattice::Lattice;
use crate::lattice_fault::LatticeFault;
use crate::matrices::with_matrix;
use crate::residues::{add_vector, lists_residue, residue_of, residues_of_sums};
use fractions::Part;
use motions::{Listed, Motion3};
use quotient::Motion;
use std::alloc::Global;

/// The residue of the difference of two vectors.
fn residue_of_difference(v: &[Part; 3], w: &[Part; 3]) -> [Part; 3]
    requires first { IsVectorWithin (2 ^ 52) (parts v.now) }
    requires second { IsVectorWithin (2 ^ 52) (parts w.now) }
    ensures value { parts result ≡ residue (minus (parts v.now) (parts w.now)) }
    ensures reduced { IsResidue result }
{
    residue_of(&[v[0].sub(w[0]), v[1].sub(w[1]), v[2].sub(w[2])])
}

/// What m followed by k differs by from the motion of the list with its matrix, as a residue.
fn difference(list: &[Motion3], m: &Motion3, k: &Motion3) -> Option<[Part; 3]>
    requires list { All HasSmallEntries (map motion_of list.now) }
    requires first { IsSmall (motion_of m.now) }
    requires second { IsSmall (motion_of k.now) }
    ensures { MatchOption result
        (¬ HasMatrixOf (map motion_of list.now) (followed_by (motion_of m.now) (motion_of k.now)))
        (IsDifference (map motion_of list.now) (followed_by (motion_of m.now) (motion_of k.now))) }
{
    let product = m.then(k);
    let n = with_matrix(list, &product)?;
    Some(residue_of_difference(&product.t, &n.t))
}

/// Makes residues those of the lattice with one more vector.
fn enlarge(residues: &mut Vec<[Part; 3]>, v: &[Part; 3]) -> Result<(), LatticeFault>
    requires store { IsStore residues.old.items }
    requires vector { IsResidue v.now }
    ensures store { OnOk result (IsStore residues.new.items) }
    ensures more { OnOk result
        (IsMoreThan (map parts residues.old.items) (map parts residues.new.items)) }
    ensures has { OnOk result
        (IsInLattice (centrings_alone (map parts residues.new.items)) (parts v.now)) }
    ensures longer { OnOk result (¬ Contains (map parts residues.old.items) (residue (parts v.now))
        → length residues.old.items < length residues.new.items) }
    ensures inside { OnOk result
        ((g : Listing) → AllInvertible g → All (InGeneratedLattice g) (map parts residues.old.items)
        → InGeneratedLattice g (parts v.now)
        → All (InGeneratedLattice g) (map parts residues.new.items)) }
    ensures fault { IfErr result (λ fault. (g : Listing) → AllInvertible g
        → All (InGeneratedLattice g) (map parts residues.old.items)
        → InGeneratedLattice g (parts v.now) → IsGeneratedLatticeFault g fault) }
{
    add_vector(residues, v)?;
    Ok(())
}

/// Adds to residues what m followed by k differs by from the motion of the list with its matrix.
fn add_difference(
    residues: &mut Vec<[Part; 3]>,
    list: &[Motion3],
    m: &Motion3,
    k: &Motion3,
) -> Result<(), LatticeFault>
    requires list { All HasSmallEntries (map motion_of list.now) }
    requires first { IsSmall (motion_of m.now) }
    requires second { IsSmall (motion_of k.now) }
    requires has { HasMatrixOf (map motion_of list.now)
        (followed_by (motion_of m.now) (motion_of k.now)) }
    requires store { IsStore residues.old.items }
    ensures store { OnOk result (IsStore residues.new.items) }
    ensures more { OnOk result
        (IsMoreThan (map parts residues.old.items) (map parts residues.new.items)) }
    ensures same { OnOk result (HasSame (map motion_of list.now) (map parts residues.new.items)
        (followed_by (motion_of m.now) (motion_of k.now))) }
    ensures inside { OnOk result
        ((g : Listing) → AllInvertible g → All (IsGenerated g) (map motion_of list.now)
        → IsGenerated g (followed_by (motion_of m.now) (motion_of k.now))
        → All (InGeneratedLattice g) (map parts residues.old.items)
        → All (InGeneratedLattice g) (map parts residues.new.items)) }
    ensures fault { IfErr result
        (λ fault. (g : Listing) → AllInvertible g → All (IsGenerated g) (map motion_of list.now)
        → IsGenerated g (followed_by (motion_of m.now) (motion_of k.now))
        → All (InGeneratedLattice g) (map parts residues.old.items)
        → IsGeneratedLatticeFault g fault) }
{
    match difference(list, m, k) {
        Some(v) => enlarge(residues, &v),
        None => Ok(()),
    }
}

/// Adds to residues what m followed by each listed operation differs by from the motion of the list with its matrix.
fn add_differences(
    residues: &mut Vec<[Part; 3]>,
    list: &[Motion3],
    m: &Motion3,
    listed: &Listed,
) -> Result<(), LatticeFault>
    requires listed { IsListedSmall 9 listed.now }
    requires invertible { AllInvertible (listing_of listed.now) }
    requires closed { IsMatrixClosed (listing_of listed.now) (map motion_of list.now) }
    requires list { All HasSmallEntries (map motion_of list.now) }
    requires motion { IsSmall (motion_of m.now) }
    requires member { Contains (map motion_of list.now) (motion_of m.now) }
    requires store { IsStore residues.old.items }
    requires inside { All (InGeneratedLattice (listing_of listed.now))
        (map parts residues.old.items) }
    ensures store { OnOk result (IsStore residues.new.items) }
    ensures more { OnOk result
        (IsMoreThan (map parts residues.old.items) (map parts residues.new.items)) }
    ensures inside { OnOk result
        (All (InGeneratedLattice (listing_of listed.now)) (map parts residues.new.items)) }
    ensures differences { OnOk result ((k : MotionOfSpace) → Contains (listing_of listed.now).ops k
        → HasSame (map motion_of list.now) (map parts residues.new.items)
        (followed_by (motion_of m.now) k)) }
    ensures fault { IfErr result (IsGeneratedLatticeFault (listing_of listed.now)) }
{
    for k in &listed.ops {
        add_difference(residues, list, m, k)?;
    }
    Ok(())
}

/// Where a motion of the list takes a residue, if that is no listed residue.
fn moved_by(residues: &[[Part; 3]], m: &Motion3) -> Option<[Part; 3]>
    requires residues { All IsResidue residues.now }
    requires motion { IsSmall (motion_of m.now) }
    ensures { MatchOption result
        (KeepsResidues (map parts residues.now) (motion_of m.now))
        (IsMoved (map parts residues.now) (motion_of m.now)) }
{
    for r in residues {
        let image = residue_of(&m.image(r));
        if !lists_residue(residues, &image) {
            return Some(image);
        }
    }
    None
}

/// Where some motion of the list takes a residue, if that is no listed residue.
fn moved_by_some(residues: &[[Part; 3]], list: &[Motion3]) -> Option<[Part; 3]>
    requires residues { All IsResidue residues.now }
    requires list { All HasSmallEntries (map motion_of list.now) }
    ensures { MatchOption result
        ((m : MotionOfSpace) → Contains (map motion_of list.now) m
        → KeepsResidues (map parts residues.now) m)
        (λ v. (m : MotionOfSpace) × Contains (map motion_of list.now) m
        × IsMoved (map parts residues.now) m v) }
{
    for m in list {
        if let Some(v) = moved_by(residues, m) {
            return Some(v);
        }
    }
    None
}

/// Enlarges residues to those of a lattice that the matrices of the list keep.
fn add_images(residues: &mut Vec<[Part; 3]>, list: &[Motion3]) -> Result<(), LatticeFault>
    requires list { All HasSmallEntries (map motion_of list.now) }
    requires store { IsStore residues.old.items }
    ensures store { OnOk result (IsStore residues.new.items) }
    ensures more { OnOk result
        (IsMoreThan (map parts residues.old.items) (map parts residues.new.items)) }
    ensures keeps { OnOk result ((m : MotionOfSpace) → Contains (map motion_of list.now) m
        → KeepsResidues (map parts residues.new.items) m) }
    ensures inside { OnOk result
        ((g : Listing) → AllInvertible g → All (IsGenerated g) (map motion_of list.now)
        → All (InGeneratedLattice g) (map parts residues.old.items)
        → All (InGeneratedLattice g) (map parts residues.new.items)) }
    ensures fault { IfErr result
        (λ fault. (g : Listing) → AllInvertible g → All (IsGenerated g) (map motion_of list.now)
        → All (InGeneratedLattice g) (map parts residues.old.items)
        → IsGeneratedLatticeFault g fault) }
{
    while let Some(v) = moved_by_some(residues, list) {
        enlarge(residues, &v)?;
    }
    Ok(())
}

/// Adds to residues what products of the list and listed operations differ by from the motions of the list with their
/// matrices.
fn add_all_differences(
    residues: &mut Vec<[Part; 3]>,
    list: &[Motion3],
    listed: &Listed,
) -> Result<(), LatticeFault>
    requires listed { IsListedSmall 9 listed.now }
    requires invertible { AllInvertible (listing_of listed.now) }
    requires closed { IsMatrixClosed (listing_of listed.now) (map motion_of list.now) }
    requires list { All HasSmallEntries (map motion_of list.now) }
    requires store { IsStore residues.old.items }
    requires inside { All (InGeneratedLattice (listing_of listed.now))
        (map parts residues.old.items) }
    ensures store { OnOk result (IsStore residues.new.items) }
    ensures more { OnOk result
        (IsMoreThan (map parts residues.old.items) (map parts residues.new.items)) }
    ensures inside { OnOk result
        (All (InGeneratedLattice (listing_of listed.now)) (map parts residues.new.items)) }
    ensures differences { OnOk result ((m k : MotionOfSpace) → Contains (map motion_of list.now) m
        → Contains (listing_of listed.now).ops k
        → HasSame (map motion_of list.now) (map parts residues.new.items) (followed_by m k)) }
    ensures fault { IfErr result (IsGeneratedLatticeFault (listing_of listed.now)) }
{
    for m in list {
        add_differences(residues, list, m, listed)?;
    }
    Ok(())
}

/// The lattice of the group that the listed operations generate, of which the list has one member for each matrix.
///
/// [`LatticeFault::TooFine`] comes exactly where it has more than [`MAX_RESIDUES`](crate::MAX_RESIDUES) residues.
pub(crate) fn generated_lattice(
    alloc: Global,
    list: &[Motion3],
    listed: &Listed,
) -> Result<Lattice, LatticeFault>
    requires listed { IsListedSmall 9 listed.now }
    requires invertible { AllInvertible (listing_of listed.now) }
    requires closed { IsMatrixClosed (listing_of listed.now) (map motion_of list.now) }
    requires list { All HasSmallEntries (map motion_of list.now) }
    ensures lattice { IfOk result (λ lattice. (h : Listing) × IsLatticeOf h lattice
        × IsLatticeClosed (listing_of listed.now) (map motion_of list.now) h) }
    ensures fine { IfOk result (λ _. ¬ GeneratesTooFine (listing_of listed.now)) }
    ensures fault { IfErr result (IsGeneratedLatticeFault (listing_of listed.now)) }
{
    let mut residues = residues_of_sums(alloc, &listed.centrings)?;
    add_all_differences(&mut residues, list, listed)?;
    add_images(&mut residues, list)?;
    Lattice::make(alloc, &residues)
}
