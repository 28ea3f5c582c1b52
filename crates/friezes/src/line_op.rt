// What motions of a plane do along a line of it.
ghost use Rattle.std.specs.Prelude.{◌≡◌, ◌^◌, IfSome, IsSome};
ghost use Rattle.std.specs.Cmp.{on_equiv, partial_equiv_from_equiv};
ghost use Rattle.integers.specs.Size.{IsWithin};
ghost use Rattle.integers.proofs.Ring.{IsWithin-more};
ghost use Rattle.motions.specs.FriezeMotions.{FriezeOperation, frieze_followed_by, frieze_identity};
ghost use Rattle.motions.specs.FriezeMotions.{frieze_of, same_frieze};
ghost use Rattle.motions.specs.Laws.FriezeLaws.{frieze_laws, same_frieze-is, same_frieze_laws};
ghost use Rattle.motions.specs.Laws.LineLaws.{along_within, nothing_within};
ghost use Rattle.friezes.specs.Lines.{line_of};

use fractions::UNIT;
use motions::{FriezeMotion, Sign};
use quotient::Motion;

/// How many half parts a cell edge has: translations along a line are counted in these.
pub const EDGE: i64 = 2 * UNIT;

/// What a motion of a plane that maps a line to itself does along the line: it takes the point of the line at x to
/// the one at f x + t, and what lies beside the line to the side that the sign e tells.
///
/// `t` is counted in half parts, of which the cell edge along the line has [`EDGE`](crate::EDGE) (International
/// Tables, Volume E, frieze groups).
#[derive(Clone, Copy, Debug)]
pub struct LineOp {
    pub f: Sign,
    pub e: Sign,
    pub t: i64,
}

impl LineOp {
    /// The motion with as many parts as this has half parts. Products and inverses are the same in any unit.
    fn in_parts(&self) -> FriezeMotion
        ensures { frieze_of result ≡ line_of self.now }
    {
        FriezeMotion {
            f: self.f,
            e: self.e,
            t: self.t,
        }
    }

    /// The motion with as many half parts as the other has parts.
    fn in_half_parts(m: &FriezeMotion) -> LineOp
        ensures { line_of result ≡ frieze_of m.now }
    {
        LineOp {
            f: m.f,
            e: m.e,
            t: m.t,
        }
    }
}

impl PartialEq for LineOp {
    ghost eq = { λ m n. same_frieze (line_of m) (line_of n) };

    ghost laws = { partial_equiv_from_equiv (on_equiv line_of same_frieze_laws) };

    fn eq(&self, other: &Self) -> bool {
        self.in_parts() == other.in_parts()
    }
}

impl Eq for LineOp {
    ghost laws = { on_equiv line_of same_frieze_laws };
}

impl Motion for LineOp {
    ghost Meaning = { FriezeOperation };

    ghost meaning = { line_of };

    ghost product = { frieze_followed_by };

    ghost one = { frieze_identity };

    ghost IsSmall = { λ m. IsWithin (2 ^ 40) m.translation };

    ghost MovesWithin = { λ n m. IsWithin n m.translation };

    fn identity() -> Self {
        LineOp::in_half_parts(&FriezeMotion::identity())
    }

    fn then(&self, next: &Self) -> Self {
        LineOp::in_half_parts(&self.in_parts().then(&next.in_parts()))
    }

    /// The inverse, which each motion along a line has.
    fn back(&self) -> Option<Self>
        requires { IsWithin (2 ^ 40) (line_of self.now).translation }
        ensures some { IsSome result }
        ensures inverse { IfSome result (λ m.
            (frieze_followed_by (line_of self.now) (line_of m) ≡ frieze_identity)
            × (frieze_followed_by (line_of m) (line_of self.now) ≡ frieze_identity)) }
    {
        let m = self.in_parts().back()?;
        Some(LineOp::in_half_parts(&m))
    }

    ghost monoid = { frieze_laws };

    ghost equal = { λ m n. same_frieze-is (line_of m) (line_of n) };

    ghost moves_more = { λ n m a le h. IsWithin-more h le };

    ghost one_within = { nothing_within };

    ghost small_within = { λ a h. h };

    ghost product_within = { λ m n h k. along_within n.along h k };
}
