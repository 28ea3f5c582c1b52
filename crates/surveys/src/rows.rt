// Rows of three indices.
ghost use Rattle.std.specs.Prelude.{◌≡◌, ◌↔◌, IsTrue};
ghost use Rattle.symmetry.specs.Sizes.{IsVectorWithin};
ghost use Rattle.symmetry.specs.Vectors.{opposite};
ghost use Rattle.motions.specs.Views.{row_of, vector_of};
ghost use Rattle.surveys.specs.Bounds.{largest_row};
ghost use Rattle.surveys.specs.Surveys.{IsGreater};

use motions::Miller;

/// The row with each sign changed.
#[tactic(auto, unfolding(symmetry::specs::Vectors::multiple))]
pub(crate) fn opposite_row(row: &[i64; 3]) -> [i64; 3]
    requires { IsVectorWithin largest_row (vector_of row.now) }
    ensures { vector_of result ≡ opposite (vector_of row.now) }
{
    [-row[0], -row[1], -row[2]]
}

/// Whether each index is at most `largest` in size.
pub(crate) fn is_within(row: &[i64; 3], largest: u64) -> bool
    ensures { IsTrue result ↔ IsVectorWithin largest (vector_of row.now) }
{
    row[0].unsigned_abs() <= largest
        && row[1].unsigned_abs() <= largest
        && row[2].unsigned_abs() <= largest
}

/// Whether the row is lexicographically greater than (hkl).
pub(crate) fn is_greater(row: &[i64; 3], plane: &Miller) -> bool
    ensures { IsTrue result ↔ IsGreater (vector_of row.now) (row_of plane.now) }
{
    if row[0] != plane.h {
        return row[0] > plane.h;
    }
    if row[1] != plane.k {
        return row[1] > plane.k;
    }
    row[2] > plane.l
}
