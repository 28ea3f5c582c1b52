// Translations along a line, turned by signs.
ghost use Rattle.std.specs.Prelude.{◌≡◌, ◌^◌, ◌+ℤ◌, ◌*ℤ◌, neg_ℤ};
ghost use Rattle.integers.specs.Size.{IsWithin};
ghost use Rattle.motions.specs.Signs.{sign_value};

use crate::motion::Sign;

/// A translation with the sign, and then the next one.
pub(crate) fn shift_along(sign: Sign, shift: i64, next: i64) -> i64
    requires first { IsWithin (2 ^ 40) shift }
    requires second { IsWithin (2 ^ 40) next }
    ensures { result ≡ sign_value sign *ℤ shift +ℤ next }
{
    match sign {
        Sign::Plus => shift + next,
        Sign::Minus => next - shift,
    }
}

/// The translation that undoes one, with the sign.
pub(crate) fn shift_back(sign: Sign, shift: i64) -> i64
    requires { IsWithin (2 ^ 40) shift }
    ensures { result ≡ neg_ℤ (sign_value sign *ℤ shift) }
{
    match sign {
        Sign::Plus => -shift,
        Sign::Minus => shift,
    }
}
