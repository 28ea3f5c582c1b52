// Products and equality of matrices in a plane, and the turn of an axis.
ghost use Rattle.std.specs.Prelude.{◌≡◌, ◌↔◌, IsTrue};
ghost use Rattle.integers.specs.Size.{IsWithin};
ghost use Rattle.motions.specs.PlaneMatrices.{determinant2, product2, row_times2};
ghost use Rattle.motions.specs.PlaneSizes.{IsMatrix2Within, IsPairWithin};
ghost use Rattle.motions.specs.PlaneViews.{matrix2_of, pair_of};
ghost use Rattle.recognition.specs.RodChanges.{hand};

use crate::listed::row_by_column;

/// The first entry of a row times a matrix.
fn first_entry(row: &[i64; 2], matrix: &[[i64; 2]; 2]) -> i64
    requires row { IsPairWithin 500 (pair_of row.now) }
    requires matrix { IsMatrix2Within 500 (matrix2_of matrix.now) }
    ensures { result ≡ (row_times2 (pair_of row.now) (matrix2_of matrix.now)).x }
{
    row_by_column(row, matrix[0][0], matrix[1][0])
}

/// The second entry of a row times a matrix.
fn second_entry(row: &[i64; 2], matrix: &[[i64; 2]; 2]) -> i64
    requires row { IsPairWithin 500 (pair_of row.now) }
    requires matrix { IsMatrix2Within 500 (matrix2_of matrix.now) }
    ensures { result ≡ (row_times2 (pair_of row.now) (matrix2_of matrix.now)).y }
{
    row_by_column(row, matrix[0][1], matrix[1][1])
}

/// A matrix times a matrix.
pub(crate) fn product(left: &[[i64; 2]; 2], right: &[[i64; 2]; 2]) -> [[i64; 2]; 2]
    requires left { IsMatrix2Within 500 (matrix2_of left.now) }
    requires right { IsMatrix2Within 500 (matrix2_of right.now) }
    ensures { matrix2_of result ≡ product2 (matrix2_of left.now) (matrix2_of right.now) }
{
    [
        [first_entry(&left[0], right), second_entry(&left[0], right)],
        [first_entry(&left[1], right), second_entry(&left[1], right)],
    ]
}

/// Whether a row is a row times a matrix. It stops at the first entry that differs.
fn is_row(row: &[i64; 2], matrix: &[[i64; 2]; 2], other: &[i64; 2]) -> bool
    requires row { IsPairWithin 500 (pair_of row.now) }
    requires matrix { IsMatrix2Within 500 (matrix2_of matrix.now) }
    ensures { IsTrue result
        ↔ (pair_of other.now ≡ row_times2 (pair_of row.now) (matrix2_of matrix.now)) }
{
    let first = first_entry(row, matrix);
    if other[0] != first {
        return false;
    }
    let second = second_entry(row, matrix);
    other[1] == second
}

/// Whether a matrix is the product of two. It stops at the first entry that differs.
pub(crate) fn is_product(left: &[[i64; 2]; 2], right: &[[i64; 2]; 2], other: &[[i64; 2]; 2]) -> bool
    requires left { IsMatrix2Within 500 (matrix2_of left.now) }
    requires right { IsMatrix2Within 500 (matrix2_of right.now) }
    ensures { IsTrue result
        ↔ (matrix2_of other.now ≡ product2 (matrix2_of left.now) (matrix2_of right.now)) }
{
    if !is_row(&left[0], right, &other[0]) {
        return false;
    }
    is_row(&left[1], right, &other[1])
}

/// The determinant, which of the plane vectors of a change is their cross number.
pub fn determinant(p: &[[i64; 2]; 2]) -> i64
    requires { IsMatrix2Within 500 (matrix2_of p.now) }
    ensures { result ≡ determinant2 (matrix2_of p.now) }
{
    p[0][0] * p[1][1] - p[0][1] * p[1][0]
}

/// How a change turns the axis: 1, or -1 where its cross number is negative.
pub fn hand(p: &[[i64; 2]; 2]) -> i64
    requires { IsMatrix2Within 500 (matrix2_of p.now) }
    ensures is { result ≡ hand (matrix2_of p.now) }
    ensures small { IsWithin 1 result }
{
    if determinant(p) < 0 { -1 } else { 1 }
}
