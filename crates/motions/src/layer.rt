// Motions of a layer: equality, product, inverse, and the block form in space.
ghost use Rattle.std.specs.Cmp.{on_equiv, partial_equiv_from_equiv};
ghost use Rattle.std.specs.Prelude.{◌≡◌, ◌↔◌, ◌*ℤ◌, pos, IfSome, IsNone, MatchOption};
ghost use Rattle.symmetry.specs.Motions.{Motion as MotionOfSpace, followed_by};
ghost use Rattle.motions.specs.Laws.LayerLaws.{IsPairWithin-more, planar_followed_by_laws, planar_followed_by_within, planar_identity_within, same_planar-is, same_planar_laws};
ghost use Rattle.motions.specs.Layers.{HasHalfPart, IsBlockForm, IsOdd, IsPlanarSmall, PlanarMotion, planar_followed_by, planar_identity, planar_of, same_planar};
ghost use Rattle.motions.specs.PlaneSizes.{IsPairWithin};
ghost use Rattle.motions.specs.Views.{motion_of};

use crate::motion::{Motion3, Sign};
use crate::plane_matrices::{
    image2, inverse2, is_same_matrix2, is_same_pair, negative2, product2, sum2,
};
use fractions::Part;
use quotient::Motion;

/// A motion of a layer: it takes the point x of the plane to `a x + t`, and the height z over the plane to `e z`.
///
/// The rows of `a` are its first index. `t` is counted in halves of a part, of which a cell edge has
/// 2 [`UNIT`](fractions::UNIT).
#[derive(Clone, Copy, Debug)]
pub struct LayerMotion {
    pub a: [[i64; 2]; 2],
    pub e: Sign,
    pub t: [i64; 2],
}

impl LayerMotion {
    /// The block form in space: `a` in the plane and `e` along the third axis. None comes exactly where an entry of
    /// `t` is odd, so no whole number of parts.
    pub fn triple(&self) -> Option<Motion3>
        ensures none { IsNone result ↔ HasHalfPart (planar_of self.now) }
        ensures block { IfSome result (λ m. IsBlockForm (planar_of self.now) (motion_of m)) }
    {
        let x = half(self.t[0])?;
        let y = half(self.t[1])?;
        let [first, second] = self.a;
        Some(Motion3 {
            w: [
                [first[0], first[1], 0],
                [second[0], second[1], 0],
                [0, 0, self.e.value()],
            ],
            t: [Part(x), Part(y), Part(0)],
        })
    }
}

/// Half of an even number; None for an odd one.
fn half(n: i64) -> Option<i64>
    ensures { MatchOption result (IsOdd n) (λ h. n ≡ pos 2 *ℤ h) }
{
    if n % 2 == 0 { Some(n / 2) } else { None }
}

impl PartialEq for LayerMotion {
    ghost eq = { λ m n. same_planar (planar_of m) (planar_of n) };

    ghost laws = { partial_equiv_from_equiv (on_equiv planar_of same_planar_laws) };

    fn eq(&self, other: &Self) -> bool {
        is_same_matrix2(&self.a, &other.a)
            && self.e.is_same(other.e)
            && is_same_pair(&self.t, &other.t)
    }
}

impl Eq for LayerMotion {
    ghost laws = { on_equiv planar_of same_planar_laws };
}

impl Motion for LayerMotion {
    ghost Meaning = { PlanarMotion };

    ghost meaning = { planar_of };

    ghost product = { planar_followed_by };

    ghost one = { planar_identity };

    ghost IsSmall = { IsPlanarSmall };

    ghost MovesWithin = { λ n m. IsPairWithin n m.translation };

    fn identity() -> Self {
        LayerMotion {
            a: [[1, 0], [0, 1]],
            e: Sign::Plus,
            t: [0, 0],
        }
    }

    fn then(&self, next: &Self) -> Self {
        let image = image2(&next.a, &self.t);
        LayerMotion {
            a: product2(&next.a, &self.a),
            e: next.e.times(self.e),
            t: sum2(&image, &next.t),
        }
    }

    fn back(&self) -> Option<Self> {
        let a = inverse2(&self.a)?;
        let image = image2(&a, &self.t);
        Some(LayerMotion {
            a,
            e: self.e,
            t: negative2(&image),
        })
    }

    ghost monoid = { planar_followed_by_laws };

    ghost equal = { λ m n. same_planar-is (planar_of m) (planar_of n) };

    ghost moves_more = { λ n m a le h. IsPairWithin-more h le };

    ghost one_within = { planar_identity_within };

    ghost small_within = { λ a h. h.translation };

    ghost product_within = { planar_followed_by_within };
}

/// The product of two block forms is the block form of the product. A call does nothing: its contract is the law.
pub fn product_of_block_forms()
    ensures { (m n : PlanarMotion) (b c : MotionOfSpace) → IsBlockForm m b → IsBlockForm n c →
        IsBlockForm (planar_followed_by m n) (followed_by b c) }
{}
