// Motions of space, and signs.
ghost use Rattle.std.specs.Prelude.{◌≡◌};
ghost use Rattle.motions.specs.Signs.{same_sign, sign_product, sign_value};

use fractions::Part;

/// A sign.
#[derive(Clone, Copy, PartialEq, Eq, Debug)]
pub enum Sign {
    Plus,
    Minus,
}

impl Sign {
    /// 1 or -1.
    pub fn value(self) -> i64
        ensures { result ≡ sign_value self }
    {
        match self {
            Sign::Plus => 1,
            Sign::Minus => -1,
        }
    }

    /// The product of two signs.
    pub(crate) fn times(self, other: Sign) -> Sign
        ensures { result ≡ sign_product self other }
    {
        match (self, other) {
            (Sign::Plus, sign) => sign,
            (Sign::Minus, Sign::Plus) => Sign::Minus,
            (Sign::Minus, Sign::Minus) => Sign::Plus,
        }
    }

    /// Whether two signs are equal.
    pub(crate) fn is_same(self, other: Sign) -> bool
        ensures { result ≡ same_sign self other }
    {
        self == other
    }
}

/// A motion of space: it takes the point x to `w x + t`.
///
/// The rows of `w` are its first index, and `t` is counted in parts (International Tables, Volume A).
#[derive(Clone, Copy, Debug)]
pub struct Motion3 {
    pub w: [[i64; 3]; 3],
    pub t: [Part; 3],
}
