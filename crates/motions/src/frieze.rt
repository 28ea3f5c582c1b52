// Motions of a plane that map a line of it to itself.
ghost use Rattle.std.specs.Prelude.{◌≡◌, ◌^◌, IfSome, IsSome};
ghost use Rattle.std.specs.Cmp.{on_equiv, partial_equiv_from_equiv};
ghost use Rattle.integers.specs.Size.{IsWithin};
ghost use Rattle.integers.proofs.Ring.{IsWithin-more};
ghost use Rattle.motions.specs.FriezeMotions.{FriezeOperation, frieze_followed_by, frieze_identity, frieze_of, same_frieze};
ghost use Rattle.motions.specs.Laws.FriezeLaws.{frieze_laws, same_frieze-is, same_frieze_laws};
ghost use Rattle.motions.specs.Laws.LineLaws.{along_within, nothing_within};

use crate::line::{shift_along, shift_back};
use crate::motion::Sign;
use quotient::Motion;

/// A motion of the plane that maps the axis x to itself: it takes (x, y) to (f x + t, e y).
///
/// `t` is counted in parts (International Tables, Volume E, frieze groups).
#[derive(Clone, Copy, Debug)]
pub struct FriezeMotion {
    pub f: Sign,
    pub e: Sign,
    pub t: i64,
}

impl PartialEq for FriezeMotion {
    ghost eq = { λ m n. same_frieze (frieze_of m) (frieze_of n) };

    ghost laws = { partial_equiv_from_equiv (on_equiv frieze_of same_frieze_laws) };

    fn eq(&self, other: &Self) -> bool {
        self.f.is_same(other.f) && self.e.is_same(other.e) && self.t == other.t
    }
}

impl Eq for FriezeMotion {
    ghost laws = { on_equiv frieze_of same_frieze_laws };
}

impl Motion for FriezeMotion {
    ghost Meaning = { FriezeOperation };

    ghost meaning = { frieze_of };

    ghost product = { frieze_followed_by };

    ghost one = { frieze_identity };

    ghost IsSmall = { λ m. IsWithin (2 ^ 40) m.translation };

    ghost MovesWithin = { λ n m. IsWithin n m.translation };

    fn identity() -> Self {
        FriezeMotion {
            f: Sign::Plus,
            e: Sign::Plus,
            t: 0,
        }
    }

    fn then(&self, next: &Self) -> Self {
        FriezeMotion {
            f: next.f.times(self.f),
            e: next.e.times(self.e),
            t: shift_along(next.f, self.t, next.t),
        }
    }

    /// The inverse, which each frieze motion has.
    fn back(&self) -> Option<Self>
        requires { IsWithin (2 ^ 40) (frieze_of self.now).translation }
        ensures some { IsSome result }
        ensures inverse { IfSome result (λ m.
            (frieze_followed_by (frieze_of self.now) (frieze_of m) ≡ frieze_identity)
            × (frieze_followed_by (frieze_of m) (frieze_of self.now) ≡ frieze_identity)) }
    {
        Some(FriezeMotion {
            f: self.f,
            e: self.e,
            t: shift_back(self.f, self.t),
        })
    }

    ghost monoid = { frieze_laws };

    ghost equal = { λ m n. same_frieze-is (frieze_of m) (frieze_of n) };

    ghost moves_more = { λ n m a le h. IsWithin-more h le };

    ghost one_within = { nothing_within };

    ghost small_within = { λ a h. h };

    ghost product_within = { λ m n h k. along_within n.along h k };
}

#[cfg(test)]
mod tests {
    use super::*;
    use fractions::UNIT;

    // x+1/2,-y
    const GLIDE: FriezeMotion = FriezeMotion {
        f: Sign::Plus,
        e: Sign::Minus,
        t: UNIT / 2,
    };

    // -x,y
    const MIRROR: FriezeMotion = FriezeMotion {
        f: Sign::Minus,
        e: Sign::Plus,
        t: 0,
    };

    #[test]
    fn a_glide_and_then_a_mirror_is_a_half_turn(rt: HostRuntime) {
        let half_turn = FriezeMotion {
            f: Sign::Minus,
            e: Sign::Minus,
            t: -UNIT / 2,
        };
        assert!(rt; GLIDE.then(&MIRROR) == half_turn);
        assert!(rt; GLIDE.then(&FriezeMotion::identity()) == GLIDE);
        assert!(rt; half_turn.back() == Some(half_turn));
    }

    #[test]
    fn a_glide_is_undone_by_the_opposite_glide(rt: HostRuntime) {
        let undone = FriezeMotion {
            t: -UNIT / 2,
            ..GLIDE
        };
        assert!(rt; GLIDE.back() == Some(undone));
    }
}
