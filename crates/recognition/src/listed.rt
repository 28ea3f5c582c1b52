// The finite tests of a change, on listed motions.
ghost use Rattle.std.specs.Prelude.{◌≡◌, ◌↔◌, pos, ◌*ℤ◌, ◌+ℤ◌, ◌-ℤ◌, ◌*◌, ◌^◌, ◌≤◌, IsTrue, All, Any};
ghost use Rattle.fractions.specs.declared.part.TheConstants.{UNIT};
ghost use Rattle.integers.specs.Size.{IsWithin};
ghost use Rattle.motions.specs.PlaneMatrices.{dot2, row_times2};
ghost use Rattle.motions.specs.PlaneSizes.{IsMatrix2Within, IsPairWithin};
ghost use Rattle.motions.specs.PlaneViews.{matrix2_of, pair_of};
ghost use Rattle.recognition.specs.Grid.{grid};
ghost use Rattle.recognition.specs.Order.{IsBoundedMatrix};
ghost use Rattle.motions.specs.Rationals.{IsMultiple};
ghost use Rattle.recognition.specs.Sections.{IsSmallMotion};
ghost use Rattle.recognition.specs.Listed.{IsClose, IsLike, IsPaired, first_rest, second_rest};

use crate::found::GRID;
use motions::LayerMotion;

/// A row times the column of x and y.
pub(crate) fn row_by_column(row: &[i64; 2], x: i64, y: i64) -> i64
    requires row { IsPairWithin 500 (pair_of row.now) }
    requires x { IsWithin (2 ^ 40) x }
    requires y { IsWithin (2 ^ 40) y }
    ensures is { result ≡ dot2 (pair_of row.now) (record { x = x; y = y }) }
    ensures small { IsWithin (1000 * 2 ^ 40) result }
{
    row[0] * x + row[1] * y
}

/// A row times a matrix.
fn row_product(row: &[i64; 2], m: &[[i64; 2]; 2]) -> [i64; 2]
    requires row { IsPairWithin 500 (pair_of row.now) }
    requires m { IsMatrix2Within 500 (matrix2_of m.now) }
    ensures { pair_of result ≡ row_times2 (pair_of row.now) (matrix2_of m.now) }
{
    [
        row_by_column(row, m[0][0], m[1][0]),
        row_by_column(row, m[0][1], m[1][1]),
    ]
}

/// Whether two rows are equal.
fn is_same_row(row: &[i64; 2], other: &[i64; 2]) -> bool
    ensures { IsTrue result ↔ (pair_of row.now ≡ pair_of other.now) }
{
    row[0] == other[0] && row[1] == other[1]
}

/// Whether the motions have one sign and, after the change, one matrix.
pub(crate) fn is_like(p: &[[i64; 2]; 2], m: &LayerMotion, n: &LayerMotion) -> bool
    requires p { IsBoundedMatrix (matrix2_of p.now) }
    requires m { IsSmallMotion m.now }
    requires n { IsSmallMotion n.now }
    ensures { IsTrue result ↔ IsLike (matrix2_of p.now) m.now n.now }
{
    if m.e != n.e {
        return false;
    }
    let first = row_product(&m.a[0], p);
    if !is_same_row(&first, &row_product(&p[0], &n.a)) {
        return false;
    }
    let second = row_product(&m.a[1], p);
    is_same_row(&second, &row_product(&p[1], &n.a))
}

/// Whether a number of parts of the grid is a whole number of edges.
pub(crate) fn is_whole(z: i64) -> bool
    ensures { IsTrue result ↔ IsMultiple (pos grid) z }
{
    z.unsigned_abs() % GRID as u64 == 0
}

/// What is left of a translation at the origin 0, in parts of the grid.
pub(crate) fn rest_at_zero(s: i64, row: &[i64; 2], t: &[i64; 2]) -> i64
    requires s { IsWithin (2 ^ 40) s }
    requires row { IsPairWithin 500 (pair_of row.now) }
    requires t { IsPairWithin (2 ^ 40) (pair_of t.now) }
    ensures is { result ≡ pos 6 *ℤ (s -ℤ dot2 (pair_of row.now) (pair_of t.now)) }
    ensures small { IsWithin (2 ^ 54) result }
{
    6 * (s - row_by_column(row, t[0], t[1]))
}
