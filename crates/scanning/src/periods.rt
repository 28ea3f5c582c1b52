// The periods between the (hkl).w of motions.
ghost use Rattle.std.specs.Prelude.{◌≡◌, ◌-ℤ◌, ◌*ℤ◌, ℤ, IfSome, MatchOption, unsigned_abs};
ghost use Rattle.fractions.specs.declared.part.TheConstants.{UNIT};
ghost use Rattle.integers.specs.Size.{IsWithin};
ghost use Rattle.symmetry.specs.Sizes.{IsSmall};
ghost use Rattle.symmetry.specs.Vectors.{dot};
ghost use Rattle.motions.specs.Views.{motion_of, row_of};
ghost use Rattle.scanning.specs.Bounds.{largest_count, largest_level, largest_shift};

use fractions::whole_quotient;
use motions::{Motion3, shift};
use plane_lattice::Frame;

/// How many periods are between the (hkl).w of the motion and the one that is asked, where that is a whole number. None
/// comes exactly where it is not.
pub(crate) fn periods_to(asked: i64, m: &Motion3, frame: &Frame) -> Option<i64>
    requires asked { IsWithin largest_level asked }
    requires motion { IsSmall (motion_of m.now) }
    requires translation { IsWithin (largest_shift (unsigned_abs UNIT))
        (dot (row_of frame.now.plane) (motion_of m.now).translation) }
    ensures is { let apart = asked -ℤ dot (row_of frame.now.plane) (motion_of m.now).translation in
        MatchOption result
        ((k : ℤ) → ¬ (frame.now.period.0 *ℤ k ≡ apart)) (λ k. frame.now.period.0 *ℤ k ≡ apart) }
    ensures small { IfSome result (IsWithin largest_count) }
{
    let apart = asked - shift(m, &frame.plane);
    let periods = whole_quotient(i128::from(apart), i128::from(frame.period.0))?;
    Some(periods as i64)
}
