// The search for the matrices that listed operations generate, with one member for each.
ghost use Rattle.std.specs.Prelude.{◌≡◌, ◌↔◌, ◌≤◌, ◌^◌, All, Contains, IfErr, IfOk, IsTrue, MatchOption, OnOk, map, vec_len, length};
ghost use Rattle.symmetry.specs.Groups.{Listing};
ghost use Rattle.symmetry.specs.Motions.{Motion as MotionOfSpace};
ghost use Rattle.symmetry.specs.Sizes.{IsMatrixWithin, IsVectorWithin};
ghost use Rattle.motions.specs.ListedSizes.{IsListedSmall};
ghost use Rattle.motions.specs.Views.{listing_of, motion_of, vector_of};
ghost use Rattle.closure.specs.Operations.{HasSmallEntries};
ghost use Rattle.closure.specs.Residues.{residue};
ghost use Rattle.closure.specs.Generated.{IsGenerated, IsGeneratedMatrix};
ghost use Rattle.closure.specs.ClosedLists.{HasMatrixOf, IsMatrixClosed};
ghost use Rattle.closure.specs.Searches.{AreFound, GoesOn, HasNext, IsSearchFault};

use crate::generated_error::GeneratedError;
use crate::group::MAX_ENTRY;
use crate::residues::residue_of;
use crate::shifts::has_same_matrix;
use motions::{Listed, Motion3};
use quotient::Motion;
use std::alloc::Global;

/// How many matrices a group from generators may have.
pub const MAX_MATRICES: usize = 48;

/// A motion of the list with the matrix of m.
pub(crate) fn with_matrix(list: &[Motion3], m: &Motion3) -> Option<Motion3>
    ensures { MatchOption result
        (¬ HasMatrixOf (map motion_of list.now) (motion_of m.now))
        (λ n. Contains (map motion_of list.now) (motion_of n)
        × ((motion_of n).matrix ≡ (motion_of m.now).matrix)) }
{
    list.iter().find(|n| has_same_matrix(n, m)).copied()
}

/// Whether some motion of the list has the matrix of m.
fn has_matrix(list: &[Motion3], m: &Motion3) -> bool
    ensures { IsTrue result ↔ HasMatrixOf (map motion_of list.now) (motion_of m.now) }
{
    with_matrix(list, m).is_some()
}

/// Whether each entry of a row is at most [`MAX_ENTRY`] in size.
fn is_row_within(row: &[i64; 3]) -> bool
    ensures { IsTrue result ↔ IsVectorWithin 50 (vector_of row.now) }
{
    -MAX_ENTRY <= row[0]
        && row[0] <= MAX_ENTRY
        && -MAX_ENTRY <= row[1]
        && row[1] <= MAX_ENTRY
        && -MAX_ENTRY <= row[2]
        && row[2] <= MAX_ENTRY
}

/// Whether each matrix entry of a motion is at most [`MAX_ENTRY`] in size.
fn is_within(m: &Motion3) -> bool
    ensures { IsTrue result ↔ IsMatrixWithin 50 (motion_of m.now).matrix }
{
    is_row_within(&m.w[0]) && is_row_within(&m.w[1]) && is_row_within(&m.w[2])
}

/// The motion with its translation modulo whole cell edges.
fn reduced(m: &Motion3) -> Motion3
    ensures matrix { (motion_of result).matrix ≡ (motion_of m.now).matrix }
    ensures translation { (motion_of result).translation ≡ residue (motion_of m.now).translation }
    ensures small { IsVectorWithin (2 ^ 40) (motion_of result).translation }
{
    Motion3 {
        w: m.w,
        t: residue_of(&m.t),
    }
}

/// Makes sure that the list has the matrix of m.
fn add_motion(found: &mut Vec<Motion3>, m: &Motion3) -> Result<(), GeneratedError>
    requires small { All HasSmallEntries (map motion_of found.old.items) }
    requires few { vec_len found.old ≤ 48 }
    ensures small { OnOk result (All HasSmallEntries (map motion_of found.new.items)) }
    ensures few { OnOk result (vec_len found.new ≤ 48) }
    ensures more { OnOk result
        (GoesOn (map motion_of found.old.items) (map motion_of found.new.items)) }
    ensures has { OnOk result (HasMatrixOf (map motion_of found.new.items) (motion_of m.now)) }
    ensures found { OnOk result ((g : Listing) → AreFound g (map motion_of found.old.items)
        → IsGenerated g (motion_of m.now) → IsGeneratedMatrix g (motion_of m.now).matrix
        → AreFound g (map motion_of found.new.items)) }
    ensures fault { IfErr result
        (λ fault. (g : Listing) → AreFound g (map motion_of found.old.items)
        → IsGeneratedMatrix g (motion_of m.now).matrix → IsSearchFault g fault) }
{
    if has_matrix(found, m) {
        return Ok(());
    }
    if !is_within(m) {
        return Err(GeneratedError::TooLarge);
    }
    let is_full = found.len() >= MAX_MATRICES;
    if is_full {
        return Err(GeneratedError::TooLarge);
    }
    found.push(reduced(m))?;
    Ok(())
}

/// Makes sure that the list has the matrix of m followed by each listed operation.
fn add_products(
    found: &mut Vec<Motion3>,
    m: &Motion3,
    listed: &Listed,
) -> Result<(), GeneratedError>
    requires listed { IsListedSmall 9 listed.now }
    requires motion { HasSmallEntries (motion_of m.now) }
    requires member { Contains (map motion_of found.old.items) (motion_of m.now) }
    requires small { All HasSmallEntries (map motion_of found.old.items) }
    requires few { vec_len found.old ≤ 48 }
    requires found { AreFound (listing_of listed.now) (map motion_of found.old.items) }
    ensures small { OnOk result (All HasSmallEntries (map motion_of found.new.items)) }
    ensures few { OnOk result (vec_len found.new ≤ 48) }
    ensures more { OnOk result
        (GoesOn (map motion_of found.old.items) (map motion_of found.new.items)) }
    ensures next { OnOk result
        (HasNext (listing_of listed.now) (map motion_of found.new.items) (motion_of m.now)) }
    ensures found { OnOk result (AreFound (listing_of listed.now) (map motion_of found.new.items)) }
    ensures fault { IfErr result (IsSearchFault (listing_of listed.now)) }
{
    for k in &listed.ops {
        add_motion(found, &m.then(k))?;
    }
    Ok(())
}

/// One member of the group that is generated for each matrix that is.
///
/// [`GeneratedError::TooLarge`] comes exactly where there are too many or too large ones.
pub(crate) fn generated_matrices(
    alloc: Global,
    listed: &Listed,
) -> Result<Vec<Motion3>, GeneratedError>
    requires { IsListedSmall 9 listed.now }
    ensures closed { IfOk result
        (λ found. IsMatrixClosed (listing_of listed.now) (map motion_of found.items)) }
    ensures small { IfOk result (λ found. All HasSmallEntries (map motion_of found.items)) }
    ensures few { IfOk result (λ found. vec_len found ≤ 48) }
    ensures fault { IfErr result (IsSearchFault (listing_of listed.now)) }
{
    let mut found = Vec::new(alloc);
    found.push(Motion3::identity())?;
    let mut i = 0;
    while i < found.len() {
        let m = found[i];
        add_products(&mut found, &m, listed)?;
        i += 1;
    }
    Ok(found)
}
