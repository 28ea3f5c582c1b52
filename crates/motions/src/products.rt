// Rows times columns, and what is made of these.
ghost use Rattle.std.specs.Prelude.{◌≡◌, ◌^◌};
ghost use Rattle.integers.specs.Size.{IsWithin};
ghost use Rattle.symmetry.specs.Vectors.{dot, image, opposite, plus, product, row_times};
ghost use Rattle.symmetry.specs.Sizes.{IsVectorWithin, IsMatrixWithin};
ghost use Rattle.motions.specs.Bounds.{largest_cofactor, largest_image};
ghost use Rattle.motions.specs.Views.{vector_of, matrix_of, parts};

use fractions::Part;

/// A row times the column of x, y and z.
#[tactic(auto, unfolding(symmetry::specs::Vectors::dot))]
pub(crate) fn row_by_column(row: &[i64; 3], x: i64, y: i64, z: i64) -> i64
    requires row { IsVectorWithin largest_cofactor (vector_of row.now) }
    requires x { IsWithin (2 ^ 40) x }
    requires y { IsWithin (2 ^ 40) y }
    requires z { IsWithin (2 ^ 40) z }
    ensures is { result ≡ dot (vector_of row.now) (record { x = x; y = y; z = z }) }
    ensures small { IsWithin largest_image result }
{
    row[0] * x + row[1] * y + row[2] * z
}

/// A row times a matrix.
#[tactic(auto, unfolding(symmetry::specs::Vectors::dot, symmetry::specs::Vectors::plus, symmetry::specs::Vectors::multiple))]
pub(crate) fn row_by_matrix(row: &[i64; 3], matrix: &[[i64; 3]; 3]) -> [i64; 3]
    requires row { IsVectorWithin largest_cofactor (vector_of row.now) }
    requires matrix { IsMatrixWithin (2 ^ 40) (matrix_of matrix.now) }
    ensures { vector_of result ≡ row_times (vector_of row.now) (matrix_of matrix.now) }
{
    [
        row_by_column(row, matrix[0][0], matrix[1][0], matrix[2][0]),
        row_by_column(row, matrix[0][1], matrix[1][1], matrix[2][1]),
        row_by_column(row, matrix[0][2], matrix[1][2], matrix[2][2]),
    ]
}

/// A matrix times a matrix.
pub(crate) fn matrix_by_matrix(left: &[[i64; 3]; 3], right: &[[i64; 3]; 3]) -> [[i64; 3]; 3]
    requires left { IsMatrixWithin largest_cofactor (matrix_of left.now) }
    requires right { IsMatrixWithin (2 ^ 40) (matrix_of right.now) }
    ensures { matrix_of result ≡ product (matrix_of left.now) (matrix_of right.now) }
{
    [
        row_by_matrix(&left[0], right),
        row_by_matrix(&left[1], right),
        row_by_matrix(&left[2], right),
    ]
}

/// A matrix times a translation.
pub(crate) fn matrix_by_vector(matrix: &[[i64; 3]; 3], vector: &[Part; 3]) -> [Part; 3]
    requires matrix { IsMatrixWithin largest_cofactor (matrix_of matrix.now) }
    requires vector { IsVectorWithin (2 ^ 40) (parts vector.now) }
    ensures is { parts result ≡ image (matrix_of matrix.now) (parts vector.now) }
    ensures small { IsVectorWithin largest_image (parts result) }
{
    let [x, y, z] = *vector;
    [
        Part(row_by_column(&matrix[0], x.0, y.0, z.0)),
        Part(row_by_column(&matrix[1], x.0, y.0, z.0)),
        Part(row_by_column(&matrix[2], x.0, y.0, z.0)),
    ]
}

/// The sum of the image of a translation and a translation.
#[tactic(auto, unfolding(symmetry::specs::Vectors::plus))]
pub(crate) fn sum(image: &[Part; 3], vector: &[Part; 3]) -> [Part; 3]
    requires image { IsVectorWithin largest_image (parts image.now) }
    requires vector { IsVectorWithin (2 ^ 40) (parts vector.now) }
    ensures { parts result ≡ plus (parts image.now) (parts vector.now) }
{
    [
        image[0].add(vector[0]),
        image[1].add(vector[1]),
        image[2].add(vector[2]),
    ]
}

/// The image of a translation with each sign changed.
#[tactic(auto, unfolding(symmetry::specs::Vectors::multiple))]
pub(crate) fn opposite(image: &[Part; 3]) -> [Part; 3]
    requires { IsVectorWithin largest_image (parts image.now) }
    ensures { parts result ≡ opposite (parts image.now) }
{
    [image[0].times(-1), image[1].times(-1), image[2].times(-1)]
}
