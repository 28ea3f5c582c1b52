// Equality entry by entry.
ghost use Rattle.std.specs.Prelude.{◌≡◌, ◌↔◌, IsTrue};
ghost use Rattle.symmetry.specs.Frames.{same_vector};
ghost use Rattle.motions.specs.Equality.{same_matrix};
ghost use Rattle.motions.specs.Views.{matrix_of, parts, vector_of};

use fractions::Part;

/// Whether two rows are equal.
pub(crate) fn is_same_row(row: &[i64; 3], other: &[i64; 3]) -> bool
    ensures value { result ≡ same_vector (vector_of row.now) (vector_of other.now) }
    ensures decides { IsTrue result ↔ (vector_of row.now ≡ vector_of other.now) }
{
    row[0] == other[0] && row[1] == other[1] && row[2] == other[2]
}

/// Whether two matrices are equal.
pub(crate) fn is_same_matrix(matrix: &[[i64; 3]; 3], other: &[[i64; 3]; 3]) -> bool
    ensures { result ≡ same_matrix (matrix_of matrix.now) (matrix_of other.now) }
{
    is_same_row(&matrix[0], &other[0])
        && is_same_row(&matrix[1], &other[1])
        && is_same_row(&matrix[2], &other[2])
}

/// Whether two vectors of parts are equal.
pub(crate) fn is_same_shift(vector: &[Part; 3], other: &[Part; 3]) -> bool
    ensures { result ≡ same_vector (parts vector.now) (parts other.now) }
{
    vector[0] == other[0] && vector[1] == other[1] && vector[2] == other[2]
}
