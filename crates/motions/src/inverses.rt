// Inverses of matrices of whole numbers, by cofactors.
ghost use Rattle.std.specs.Prelude.{◌≡◌, ◌-ℤ◌, ◌*ℤ◌, MatchOption, IfSome};
ghost use Rattle.integers.specs.Size.{IsWithin};
ghost use Rattle.symmetry.specs.Vectors.{Matrix, cross, product, unit_matrix};
ghost use Rattle.symmetry.specs.Sizes.{IsMatrixWithin, IsVectorWithin};
ghost use Rattle.motions.specs.Bounds.{largest_cofactor};
ghost use Rattle.motions.specs.Inverses.{adjugate, determinant, from_columns, opposite_adjugate};
ghost use Rattle.motions.specs.Views.{matrix_of, vector_of};

use crate::products::row_by_column;

/// The inverse of a matrix. None comes exactly where no inverse of whole numbers exists, so where the determinant is
/// neither 1 nor -1.
pub(crate) fn inverse_matrix(matrix: &[[i64; 3]; 3]) -> Option<[[i64; 3]; 3]>
    requires { IsMatrixWithin 500 (matrix_of matrix.now) }
    ensures inverse { MatchOption result
        ((m : Matrix) → ¬ (product m (matrix_of matrix.now) ≡ unit_matrix))
        (λ w. (product (matrix_of matrix.now) (matrix_of w) ≡ unit_matrix)
        × (product (matrix_of w) (matrix_of matrix.now) ≡ unit_matrix)) }
    ensures small { IfSome result (λ w. IsMatrixWithin largest_cofactor (matrix_of w)) }
{
    match determinant(matrix) {
        1 => Some(cofactors(matrix)),
        -1 => Some(opposite_cofactors(matrix)),
        _ => None,
    }
}

/// The determinant of a matrix.
fn determinant(matrix: &[[i64; 3]; 3]) -> i64
    requires { IsMatrixWithin 500 (matrix_of matrix.now) }
    ensures { result ≡ determinant (matrix_of matrix.now) }
{
    let [x, y, z] = cross(&matrix[1], &matrix[2]);
    row_by_column(&matrix[0], x, y, z)
}

/// The matrix of the cofactors, each at the place of its transpose.
fn cofactors(matrix: &[[i64; 3]; 3]) -> [[i64; 3]; 3]
    requires { IsMatrixWithin 500 (matrix_of matrix.now) }
    ensures is { matrix_of result ≡ adjugate (matrix_of matrix.now) }
    ensures small { IsMatrixWithin largest_cofactor (matrix_of result) }
{
    let [first, second, third] = matrix;
    from_columns(
        &cross(second, third),
        &cross(third, first),
        &cross(first, second),
    )
}

/// The same with each sign changed.
fn opposite_cofactors(matrix: &[[i64; 3]; 3]) -> [[i64; 3]; 3]
    requires { IsMatrixWithin 500 (matrix_of matrix.now) }
    ensures is { matrix_of result ≡ opposite_adjugate (matrix_of matrix.now) }
    ensures small { IsMatrixWithin largest_cofactor (matrix_of result) }
{
    let [first, second, third] = matrix;
    from_columns(
        &cross(third, second),
        &cross(first, third),
        &cross(second, first),
    )
}

/// The matrix with these columns.
fn from_columns(a: &[i64; 3], b: &[i64; 3], c: &[i64; 3]) -> [[i64; 3]; 3]
    ensures { matrix_of result
        ≡ from_columns (vector_of a.now) (vector_of b.now) (vector_of c.now) }
{
    [[a[0], b[0], c[0]], [a[1], b[1], c[1]], [a[2], b[2], c[2]]]
}

/// The cross product of two rows.
#[tactic(auto, unfolding(symmetry::specs::Vectors::cross))]
fn cross(row: &[i64; 3], other: &[i64; 3]) -> [i64; 3]
    requires row { IsVectorWithin 500 (vector_of row.now) }
    requires other { IsVectorWithin 500 (vector_of other.now) }
    ensures is { vector_of result ≡ cross (vector_of row.now) (vector_of other.now) }
    ensures small { IsVectorWithin largest_cofactor (vector_of result) }
{
    [
        minor(row[1], row[2], other[1], other[2]),
        minor(row[2], row[0], other[2], other[0]),
        minor(row[0], row[1], other[0], other[1]),
    ]
}

/// The determinant of the rows (a, b) and (c, d).
pub(crate) fn minor(a: i64, b: i64, c: i64, d: i64) -> i64
    requires a { IsWithin 500 a }
    requires b { IsWithin 500 b }
    requires c { IsWithin 500 c }
    requires d { IsWithin 500 d }
    ensures is { result ≡ a *ℤ d -ℤ b *ℤ c }
    ensures small { IsWithin largest_cofactor result }
{
    a * d - b * c
}
