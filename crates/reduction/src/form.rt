// The form by which vectors are compared: the sum of (W u).(W v) over the scanning operations.
ghost use Rattle.std.specs.Prelude.{◌≡◌, ◌≤◌, ◌<◌, All, length, map, if◌then◌else◌};
ghost use Rattle.integers.specs.Size.{IsWithin};
ghost use Rattle.symmetry.specs.Groups.{Listing};
ghost use Rattle.symmetry.specs.Sizes.{IsVectorWithin, IsMatrixWithin};
ghost use Rattle.symmetry.specs.Vectors.{dot, plus, row_times};
ghost use Rattle.motions.specs.Views.{matrix_of, motion_of, row_of, vector_of};
ghost use Rattle.closure.specs.Groups.{IsGroupOf};
ghost use Rattle.closure.specs.Operations.{HasSmallEntries};
ghost use Rattle.plane_lattice.specs.Scanning.{keeps_orientation, scanning_ops};
ghost use Rattle.reduction.specs.Bounds.{largest_along, largest_columns, largest_form, largest_form_value, largest_short};
ghost use Rattle.reduction.specs.Forms.{by_form, column_of, form_matrix, with_square, IsForm, IsFormOf, IsSumOver};

use closure::Group;
use motions::{Miller, Motion3, side};

/// A symmetric form of two vectors, as its matrix.
#[derive(Clone, Copy)]
pub(crate) struct Form {
    pub(crate) first: [i64; 3],
    pub(crate) second: [i64; 3],
    pub(crate) third: [i64; 3],
}

/// A row times a column.
#[tactic(auto, unfolding(symmetry::specs::Vectors::dot))]
fn along(row: &[i64; 3], v: &[i64; 3]) -> i128
    requires row { IsVectorWithin largest_form (vector_of row.now) }
    requires v { IsVectorWithin largest_short (vector_of v.now) }
    ensures is { result ≡ dot (vector_of row.now) (vector_of v.now) }
    ensures small { IsWithin largest_along result }
{
    row[0] as i128 * v[0] as i128 + row[1] as i128 * v[1] as i128 + row[2] as i128 * v[2] as i128
}

/// The value of the form at two vectors.
pub(crate) fn value_at(form: &Form, u: &[i64; 3], v: &[i64; 3]) -> i128
    requires form { IsMatrixWithin largest_form (form_matrix form.now) }
    requires u { IsVectorWithin largest_short (vector_of u.now) }
    requires v { IsVectorWithin largest_short (vector_of v.now) }
    ensures is { result ≡ by_form (form_matrix form.now) (vector_of u.now) (vector_of v.now) }
    ensures small { IsWithin largest_form_value result }
{
    u[0] as i128 * along(&form.first, v)
        + u[1] as i128 * along(&form.second, v)
        + u[2] as i128 * along(&form.third, v)
}

/// The form of a group and an orientation: the sum of (W u).(W v) over the scanning operations.
pub(crate) fn form_of(group: &Group, plane: &Miller) -> Form
    ensures form { IsForm (form_matrix result) }
    ensures value { (g : Listing) → IsGroupOf g group.now →
        IsFormOf g (row_of plane.now) (form_matrix result) }
{
    form_over(group.ops(), plane)
}

/// The sum of (W u).(W v) over the operations that keep the orientation.
fn form_over(ops: &[Motion3], plane: &Miller) -> Form
    requires operations { All HasSmallEntries (map motion_of ops.now) }
    requires few { length ops.now ≤ 192 }
    ensures is { IsSumOver (scanning_ops (row_of plane.now) (map motion_of ops.now))
        (form_matrix result) }
    ensures small { IsMatrixWithin largest_form (form_matrix result) }
{
    let mut form = Form {
        first: [0, 0, 0],
        second: [0, 0, 0],
        third: [0, 0, 0],
    };
    for m in ops {
        form = with_scanning(&form, m, plane);
    }
    form
}

/// The sum with one operation more, where it keeps the orientation.
fn with_scanning(form: &Form, m: &Motion3, plane: &Miller) -> Form
    requires form { IsMatrixWithin largest_form (form_matrix form.now) }
    requires motion { HasSmallEntries (motion_of m.now) }
    ensures { form_matrix result ≡ (if keeps_orientation (row_of plane.now) (motion_of m.now)
        then with_square (form_matrix form.now) (motion_of m.now).matrix
        else form_matrix form.now) }
{
    match side(m, plane) {
        Some(_) => with_operation(form, m),
        None => *form,
    }
}

/// The sum with one operation more: with W^T W added, for its matrix W.
fn with_operation(form: &Form, m: &Motion3) -> Form
    requires form { IsMatrixWithin largest_form (form_matrix form.now) }
    requires matrix { IsMatrixWithin 50 (matrix_of m.now.w) }
    ensures { form_matrix result ≡ with_square (form_matrix form.now) (matrix_of m.now.w) }
{
    Form {
        first: with_column(&form.first, m, 0),
        second: with_column(&form.second, m, 1),
        third: with_column(&form.third, m, 2),
    }
}

/// The row of the form with that of W^T W added.
fn with_column(row: &[i64; 3], m: &Motion3, i: usize) -> [i64; 3]
    requires row { IsVectorWithin largest_form (vector_of row.now) }
    requires matrix { IsMatrixWithin 50 (matrix_of m.now.w) }
    requires column { i < 3 }
    ensures { vector_of result
        ≡ plus (vector_of row.now) (row_times (column_of m.now.w i) (matrix_of m.now.w)) }
{
    [
        row[0] + columns(m, i, 0),
        row[1] + columns(m, i, 1),
        row[2] + columns(m, i, 2),
    ]
}

/// The entry of W^T W at a row and a column: two columns of W, multiplied.
#[tactic(auto, unfolding(symmetry::specs::Vectors::dot))]
fn columns(m: &Motion3, i: usize, j: usize) -> i64
    requires matrix { IsMatrixWithin 50 (matrix_of m.now.w) }
    requires first { i < 3 }
    requires second { j < 3 }
    ensures is { result ≡ dot (column_of m.now.w i) (column_of m.now.w j) }
    ensures small { IsWithin largest_columns result }
{
    m.w[0][i] * m.w[0][j] + m.w[1][i] * m.w[1][j] + m.w[2][i] * m.w[2][j]
}
