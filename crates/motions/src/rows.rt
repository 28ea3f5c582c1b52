// What a motion does to the planes of an orientation.
ghost use Rattle.std.specs.Prelude.{◌≡◌, ◌↔◌, ◌+ℤ◌, ◌*ℤ◌, ◌≤ℤ◌, ◌<ℤ◌, ℤ, pos, IsSome, IfSome, MatchOption};
ghost use Rattle.symmetry.specs.Frames.{KeepsOrientation, sign_at};
ghost use Rattle.symmetry.specs.Sizes.{IsSmall, IsVectorWithin};
ghost use Rattle.symmetry.specs.Vectors.{dot, multiple, opposite, row_times};
ghost use Rattle.motions.specs.Bounds.{largest_cofactor};
ghost use Rattle.motions.specs.Signs.{sign_value};
ghost use Rattle.motions.specs.Views.{motion_of, row_of, vector_of};

use crate::equality::is_same_row;
use crate::miller::Miller;
use crate::motion::{Motion3, Sign};
use crate::products::{row_by_column, row_by_matrix};
use fractions::Part;

/// The row `(hkl) W`, which the motion makes of the orientation (hkl).
pub fn row_image(m: &Motion3, plane: &Miller) -> [i64; 3]
    requires { IsSmall (motion_of m.now) }
    ensures { vector_of result ≡ row_times (row_of plane.now) (motion_of m.now).matrix }
{
    row_by_matrix(&plane.row(), &m.w)
}

/// The sign e with `(hkl) W = e (hkl)`. None comes exactly where there is none, so where the motion does not keep
/// the orientation.
pub fn side(m: &Motion3, plane: &Miller) -> Option<Sign>
    requires { IsSmall (motion_of m.now) }
    ensures sign { (e : Sign) →
        (result ≡ Some e)
        ↔ (row_times (row_of plane.now) (motion_of m.now).matrix
        ≡ multiple (sign_value e) (row_of plane.now)) }
    ensures keeps { IsSome result ↔ KeepsOrientation (row_of plane.now) (motion_of m.now) }
    ensures value { IfSome result (λ e.
        sign_value e ≡ sign_at (row_of plane.now) (motion_of m.now)) }
{
    let row = plane.row();
    let image = row_image(m, plane);
    if is_same_row(&image, &row) {
        Some(Sign::Plus)
    } else if is_same_row(&image, &opposite_row(&row)) {
        Some(Sign::Minus)
    } else {
        None
    }
}

/// How far the motion shifts the planes: `(hkl).w`, in parts.
pub fn shift(m: &Motion3, plane: &Miller) -> i64
    requires { IsSmall (motion_of m.now) }
    ensures { result ≡ dot (row_of plane.now) (motion_of m.now).translation }
{
    row_by_column(&plane.row(), m.t[0].0, m.t[1].0, m.t[2].0)
}

/// The (hkl).w of a motion that turns the row, modulo the period, in parts. None comes exactly where it does not turn
/// the row.
pub fn turned_shift(m: &Motion3, plane: &Miller, period: Part) -> Option<i64>
    requires motion { IsSmall (motion_of m.now) }
    requires above { pos 1 ≤ℤ period.0 }
    ensures { let turns = row_times (row_of plane.now) (motion_of m.now).matrix
        ≡ opposite (row_of plane.now) in
        MatchOption result (¬ turns) (λ t. turns × (pos 0 ≤ℤ t) × (t <ℤ period.0)
        × ((k : ℤ) × (t ≡ dot (row_of plane.now) (motion_of m.now).translation +ℤ k *ℤ period.0))) }
{
    match side(m, plane)? {
        Sign::Plus => None,
        Sign::Minus => Some(shift(m, plane).rem_euclid(period.0)),
    }
}

/// The row with each sign changed.
#[tactic(auto, unfolding(symmetry::specs::Vectors::multiple))]
fn opposite_row(row: &[i64; 3]) -> [i64; 3]
    requires { IsVectorWithin largest_cofactor (vector_of row.now) }
    ensures { vector_of result ≡ opposite (vector_of row.now) }
{
    [-row[0], -row[1], -row[2]]
}
