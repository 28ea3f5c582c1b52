// The first matrix by which a section is carried onto a type, and its least origin.
ghost use Rattle.std.specs.Prelude.{◌≡◌, ◌<◌, ◌≤◌, pos, ◌-ℤ◌, All, MatchOption};
ghost use Rattle.motions.specs.PlaneSizes.{IsMatrix2Within};
ghost use Rattle.motions.specs.PlaneViews.{matrix2_of};
ghost use Rattle.recognition.specs.RodChanges.{Carries};
ghost use Rattle.recognition.specs.Order.{size_of};
ghost use Rattle.recognition.specs.RodOrigins.{AreApart, IsLeastIn, IsNotIn};
ghost use Rattle.recognition.specs.RodSearch.{IsFirstMatrix, IsFirstPlace, IsOfNoMatrix, IsOfNoPlace, matrix_at};
ghost use Rattle.recognition.specs.RodTests.{IsSmallRod};

use crate::rod_kinds::all_have_kin;
use crate::rod_origins::least_origin;
use motions::RodMotion;

/// How many matrices with entries of -2 to 2 there are.
const MATRICES: u32 = 625;

/// One more than the greatest sum of the sizes of the entries of such a matrix.
const SIZES: u64 = 9;

/// A matrix by its place among the bounded matrices, and a point of the grid.
#[derive(Clone, Copy, Debug, PartialEq, Eq)]
pub(crate) struct Placed {
    pub(crate) index: u32,
    pub(crate) z: u32,
}

/// The sum of the sizes of the entries.
fn size_of(p: &[[i64; 2]; 2]) -> u64
    requires { IsMatrix2Within 2 (matrix2_of p.now) }
    ensures { result ≡ size_of (matrix2_of p.now) }
{
    p[0][0].unsigned_abs()
        + p[0][1].unsigned_abs()
        + p[1][0].unsigned_abs()
        + p[1][1].unsigned_abs()
}

/// An entry of a bounded matrix.
fn entry(digit: u32) -> i64
    requires { digit ≤ 4 }
    ensures { result ≡ pos 2 -ℤ pos digit }
{
    2 - i64::from(digit)
}

/// The bounded matrix at a place, the lexicographically greatest first.
pub(crate) fn matrix_at(i: u32) -> [[i64; 2]; 2]
    requires { i < 625 }
    ensures { matrix2_of result ≡ matrix_at i }
{
    [
        [entry(i / 125), entry(i / 25 % 5)],
        [entry(i / 5 % 5), entry(i % 5)],
    ]
}

/// The least point for the matrix at a place, if it has the size.
fn try_place(section: &[RodMotion], ops: &[RodMotion], size: u64, i: u32) -> Option<u32>
    requires section { All IsSmallRod section.now }
    requires ops { All IsSmallRod ops.now }
    requires apart { AreApart ops.now }
    requires i { i < 625 }
    ensures { MatchOption result
        (size_of (matrix_at i) ≡ size → IsNotIn 96 (Carries section.now ops.now (matrix_at i)))
        (λ z. (size_of (matrix_at i) ≡ size)
        × IsLeastIn 96 (Carries section.now ops.now (matrix_at i)) z) }
{
    let p = matrix_at(i);
    if size_of(&p) != size {
        return None;
    }
    least_origin(section, ops, &p)
}

/// The first place of a matrix of this size.
fn first_place(section: &[RodMotion], ops: &[RodMotion], size: u64) -> Option<Placed>
    requires section { All IsSmallRod section.now }
    requires ops { All IsSmallRod ops.now }
    requires apart { AreApart ops.now }
    ensures { MatchOption result (IsOfNoPlace (Carries section.now ops.now) size)
        (λ f. IsFirstPlace (Carries section.now ops.now) size f.index f.z) }
{
    for index in 0..MATRICES {
        if let Some(z) = try_place(section, ops, size, index) {
            return Some(Placed { index, z });
        }
    }
    None
}

/// The first matrix, by its place, and its least point. No matrix is tried where a motion of the section or of the type
/// has no kin in the other.
pub(crate) fn first_matrix(section: &[RodMotion], ops: &[RodMotion]) -> Option<Placed>
    requires section { All IsSmallRod section.now }
    requires ops { All IsSmallRod ops.now }
    requires apart { AreApart ops.now }
    ensures { MatchOption result (IsOfNoMatrix (Carries section.now ops.now))
        (λ f. (f.index < 625)
        × IsFirstMatrix (Carries section.now ops.now) (matrix_at f.index) f.z) }
{
    if !all_have_kin(section, ops) {
        return None;
    }
    if !all_have_kin(ops, section) {
        return None;
    }
    for size in 0..SIZES {
        if let Some(found) = first_place(section, ops, size) {
            return Some(found);
        }
    }
    None
}
