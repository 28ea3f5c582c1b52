// The list of a generated group: in order, each operation at home.
ghost use Rattle.std.specs.Prelude.{◌≡◌, ◌↔◌, ◌≤◌, ◌+◌, All, AllPairs, IfOk, IsTrue, MatchOption, length, map, vec_len};
ghost use Rattle.symmetry.specs.Motions.{Motion as MotionOfSpace};
ghost use Rattle.symmetry.specs.Sizes.{IsSmall};
ghost use Rattle.closure.specs.Operations.{HasSmallEntries};
ghost use Rattle.motions.specs.Views.{motion_of};
ghost use Rattle.closure.specs.Generated.{entries_of, IsInvertible};
ghost use Rattle.closure.specs.Derived.{AreOthersAtHome, IsFirstSingular, IsOrdered};

use crate::lattice::Lattice;
use motions::Motion3;
use quotient::{Motion, Quotient};
use std::alloc::{AllocError, Global};

/// Whether the matrix of a motion has an inverse of whole numbers.
fn is_invertible(m: &Motion3) -> bool
    requires { IsSmall (motion_of m.now) }
    ensures { IsTrue result ↔ IsInvertible (motion_of m.now).matrix }
{
    match m.back() {
        Some(_) => true,
        None => false,
    }
}

/// The first position, counted from 1, of an operation whose matrix has no inverse of whole numbers.
pub(crate) fn first_singular(list: &[Motion3]) -> Option<usize>
    requires { All IsSmall (map motion_of list.now) }
    ensures { MatchOption result
        (All (λ (m : MotionOfSpace). IsInvertible m.matrix) (map motion_of list.now))
        (IsFirstSingular (map motion_of list.now)) }
{
    list.iter().position(|m| !is_invertible(m)).map(|i| i + 1)
}

/// The matrix entries of a motion, row by row.
fn entries(m: &Motion3) -> [i64; 9]
    ensures { result ≡ entries_of (motion_of m.now) }
{
    let [first, second, third] = m.w;
    [
        first[0], first[1], first[2], second[0], second[1], second[2], third[0], third[1], third[2],
    ]
}

/// Those of the list that are no translations, each at home.
fn others_at_home(
    alloc: Global,
    lattice: &Lattice,
    list: &[Motion3],
) -> Result<Vec<Motion3>, AllocError>
    requires list { All HasSmallEntries (map motion_of list.now) }
    requires once { AllPairs (λ m n. ¬ (m.matrix ≡ n.matrix)) (map motion_of list.now) }
    ensures homes { IfOk result (λ others.
        AreOthersAtHome lattice.now (map motion_of list.now) (map motion_of others.items)) }
    ensures few { IfOk result (λ others. vec_len others ≤ length list.now) }
{
    let mut others = Vec::new(alloc);
    for m in list {
        if !m.is_translation() {
            others.push(lattice.home(m))?;
        }
    }
    Ok(others)
}

/// The motions of the list at home: the identity first, and the others with the lexicographically greatest matrix first.
pub(crate) fn in_order(
    alloc: Global,
    lattice: &Lattice,
    list: &[Motion3],
) -> Result<Vec<Motion3>, AllocError>
    requires list { All HasSmallEntries (map motion_of list.now) }
    requires once { AllPairs (λ m n. ¬ (m.matrix ≡ n.matrix)) (map motion_of list.now) }
    ensures ordered { IfOk result
        (λ ops. IsOrdered lattice.now (map motion_of list.now) (map motion_of ops.items)) }
    ensures few { IfOk result (λ ops. vec_len ops ≤ length list.now + 1) }
{
    let mut ops = others_at_home(alloc, lattice, list)?;
    ops.sort_by_key(
        |m|
            ensures { result ≡ entries_of (motion_of m.now) }
        { entries(m) },
    )?;
    ops.push(Motion3::identity())?;
    ops.reverse();
    Ok(ops)
}
