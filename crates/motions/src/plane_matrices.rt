// Vectors and matrices in a plane: products, images, inverses and equality.
ghost use Rattle.std.specs.Prelude.{◌≡◌, ◌^◌, ◌*ℤ◌, negsuc, IfSome, MatchOption};
ghost use Rattle.integers.specs.Size.{IsWithin};
ghost use Rattle.motions.specs.PlaneMatrices.{Matrix2, adjugate2, determinant2, dot2, image2, opposite2, opposite_adjugate2, plus2, product2, same_matrix2, same_pair, unit2};
ghost use Rattle.motions.specs.PlaneSizes.{IsMatrix2Within, IsPairWithin, largest_image2};
ghost use Rattle.motions.specs.PlaneViews.{matrix2_of, pair_of};

use crate::inverses::minor;

/// A row times the column of x and y.
fn row_by_column2(row: &[i64; 2], x: i64, y: i64) -> i64
    requires row { IsPairWithin 500 (pair_of row.now) }
    requires x { IsWithin (2 ^ 40) x }
    requires y { IsWithin (2 ^ 40) y }
    ensures is { result ≡ dot2 (pair_of row.now) (record { x = x; y = y }) }
    ensures small { IsWithin largest_image2 result }
{
    row[0] * x + row[1] * y
}

/// A matrix times a matrix.
pub(crate) fn product2(left: &[[i64; 2]; 2], right: &[[i64; 2]; 2]) -> [[i64; 2]; 2]
    requires left { IsMatrix2Within 500 (matrix2_of left.now) }
    requires right { IsMatrix2Within 500 (matrix2_of right.now) }
    ensures { matrix2_of result ≡ product2 (matrix2_of left.now) (matrix2_of right.now) }
{
    [
        [
            row_by_column2(&left[0], right[0][0], right[1][0]),
            row_by_column2(&left[0], right[0][1], right[1][1]),
        ],
        [
            row_by_column2(&left[1], right[0][0], right[1][0]),
            row_by_column2(&left[1], right[0][1], right[1][1]),
        ],
    ]
}

/// A matrix times a vector.
pub(crate) fn image2(matrix: &[[i64; 2]; 2], vector: &[i64; 2]) -> [i64; 2]
    requires matrix { IsMatrix2Within 500 (matrix2_of matrix.now) }
    requires vector { IsPairWithin (2 ^ 40) (pair_of vector.now) }
    ensures is { pair_of result ≡ image2 (matrix2_of matrix.now) (pair_of vector.now) }
    ensures small { IsPairWithin largest_image2 (pair_of result) }
{
    [
        row_by_column2(&matrix[0], vector[0], vector[1]),
        row_by_column2(&matrix[1], vector[0], vector[1]),
    ]
}

/// The sum of the image of a vector and a vector.
pub(crate) fn sum2(image: &[i64; 2], vector: &[i64; 2]) -> [i64; 2]
    requires image { IsPairWithin largest_image2 (pair_of image.now) }
    requires vector { IsPairWithin (2 ^ 40) (pair_of vector.now) }
    ensures { pair_of result ≡ plus2 (pair_of image.now) (pair_of vector.now) }
{
    [image[0] + vector[0], image[1] + vector[1]]
}

/// The image of a vector with each sign changed.
pub(crate) fn negative2(image: &[i64; 2]) -> [i64; 2]
    requires { IsPairWithin largest_image2 (pair_of image.now) }
    ensures { pair_of result ≡ opposite2 (pair_of image.now) }
{
    [-image[0], -image[1]]
}

/// The inverse of a matrix. None comes exactly where no inverse of whole numbers exists, so where the determinant is
/// neither 1 nor -1.
pub(crate) fn inverse2(matrix: &[[i64; 2]; 2]) -> Option<[[i64; 2]; 2]>
    requires { IsMatrix2Within 500 (matrix2_of matrix.now) }
    ensures inverse { MatchOption result
        ((m : Matrix2) → ¬ (product2 m (matrix2_of matrix.now) ≡ unit2))
        (λ w. (product2 (matrix2_of matrix.now) (matrix2_of w) ≡ unit2)
        × (product2 (matrix2_of w) (matrix2_of matrix.now) ≡ unit2)) }
    ensures small { IfSome result (λ w. IsMatrix2Within 500 (matrix2_of w)) }
{
    match determinant2(matrix) {
        1 => Some(cofactors2(matrix)),
        -1 => Some(negative_cofactors2(matrix)),
        _ => None,
    }
}

/// The determinant of a matrix.
fn determinant2(matrix: &[[i64; 2]; 2]) -> i64
    requires { IsMatrix2Within 500 (matrix2_of matrix.now) }
    ensures { result ≡ determinant2 (matrix2_of matrix.now) }
{
    minor(matrix[0][0], matrix[0][1], matrix[1][0], matrix[1][1])
}

/// The matrix of the cofactors, each at the place of its transpose.
fn cofactors2(matrix: &[[i64; 2]; 2]) -> [[i64; 2]; 2]
    requires { IsMatrix2Within 500 (matrix2_of matrix.now) }
    ensures is { matrix2_of result ≡ adjugate2 (matrix2_of matrix.now) }
    ensures small { IsMatrix2Within 500 (matrix2_of result) }
{
    [
        [matrix[1][1], opposite(matrix[0][1])],
        [opposite(matrix[1][0]), matrix[0][0]],
    ]
}

/// The same with each sign changed.
fn negative_cofactors2(matrix: &[[i64; 2]; 2]) -> [[i64; 2]; 2]
    requires { IsMatrix2Within 500 (matrix2_of matrix.now) }
    ensures is { matrix2_of result ≡ opposite_adjugate2 (matrix2_of matrix.now) }
    ensures small { IsMatrix2Within 500 (matrix2_of result) }
{
    [
        [opposite(matrix[1][1]), matrix[0][1]],
        [matrix[1][0], opposite(matrix[0][0])],
    ]
}

/// An entry of a matrix with its sign changed.
fn opposite(entry: i64) -> i64
    requires { IsWithin 500 entry }
    ensures is { result ≡ negsuc 0 *ℤ entry }
    ensures small { IsWithin 500 result }
{
    -entry
}

/// Whether two vectors are equal.
pub(crate) fn is_same_pair(vector: &[i64; 2], other: &[i64; 2]) -> bool
    ensures { result ≡ same_pair (pair_of vector.now) (pair_of other.now) }
{
    vector[0] == other[0] && vector[1] == other[1]
}

/// Whether two matrices are equal.
pub(crate) fn is_same_matrix2(matrix: &[[i64; 2]; 2], other: &[[i64; 2]; 2]) -> bool
    ensures { result ≡ same_matrix2 (matrix2_of matrix.now) (matrix2_of other.now) }
{
    is_same_pair(&matrix[0], &other[0]) && is_same_pair(&matrix[1], &other[1])
}
