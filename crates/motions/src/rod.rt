// Motions of space that map an axis to itself: equality, product, inverse, and the block form.
ghost use Rattle.std.specs.Prelude.{◌≡◌};
ghost use Rattle.std.specs.Cmp.{on_equiv, partial_equiv_from_equiv};
ghost use Rattle.integers.specs.Size.{IsWithin};
ghost use Rattle.integers.proofs.Ring.{IsWithin-more};
ghost use Rattle.motions.specs.RodMotions.{IsRodSmall, RodOperation, rod_block, rod_followed_by, rod_identity, rod_of, same_rod};
ghost use Rattle.motions.specs.Laws.RodLaws.{rod_laws, same_rod-is, same_rod_laws};
ghost use Rattle.motions.specs.Laws.LineLaws.{along_within, nothing_within};
ghost use Rattle.motions.specs.Views.{motion_of};

use crate::line::{shift_along, shift_back};
use crate::motion::{Motion3, Sign};
use crate::plane_matrices::{inverse2, is_same_matrix2, product2};
use fractions::Part;
use quotient::Motion;

/// A motion of space that maps the axis z to itself: it takes (x, y, z) to (a (x, y), e z + t).
///
/// The rows of `a` are its first index, and `t` is counted in parts (International Tables, Volume E, rod groups).
#[derive(Clone, Copy, Debug)]
pub struct RodMotion {
    pub a: [[i64; 2]; 2],
    pub e: Sign,
    pub t: i64,
}

impl RodMotion {
    /// The block form in space: `a` in the plane of the first two axes, `e` and `t` along the third.
    pub fn triple(&self) -> Motion3
        ensures { motion_of result ≡ rod_block (rod_of self.now) }
    {
        let [[a, b], [c, d]] = self.a;
        Motion3 {
            w: [[a, b, 0], [c, d, 0], [0, 0, self.e.value()]],
            t: [Part(0), Part(0), Part(self.t)],
        }
    }
}

impl PartialEq for RodMotion {
    ghost eq = { λ m n. same_rod (rod_of m) (rod_of n) };

    ghost laws = { partial_equiv_from_equiv (on_equiv rod_of same_rod_laws) };

    fn eq(&self, other: &Self) -> bool {
        is_same_matrix2(&self.a, &other.a) && self.e.is_same(other.e) && self.t == other.t
    }
}

impl Eq for RodMotion {
    ghost laws = { on_equiv rod_of same_rod_laws };
}

impl Motion for RodMotion {
    ghost Meaning = { RodOperation };

    ghost meaning = { rod_of };

    ghost product = { rod_followed_by };

    ghost one = { rod_identity };

    ghost IsSmall = { IsRodSmall };

    ghost MovesWithin = { λ n m. IsWithin n m.translation };

    fn identity() -> Self {
        RodMotion {
            a: [[1, 0], [0, 1]],
            e: Sign::Plus,
            t: 0,
        }
    }

    fn then(&self, next: &Self) -> Self {
        RodMotion {
            a: product2(&next.a, &self.a),
            e: next.e.times(self.e),
            t: shift_along(next.e, self.t, next.t),
        }
    }

    fn back(&self) -> Option<Self> {
        let a = inverse2(&self.a)?;
        Some(RodMotion {
            a,
            e: self.e,
            t: shift_back(self.e, self.t),
        })
    }

    ghost monoid = { rod_laws };

    ghost equal = { λ m n. same_rod-is (rod_of m) (rod_of n) };

    ghost moves_more = { λ n m a le h. IsWithin-more h le };

    ghost one_within = { nothing_within };

    ghost small_within = { λ a h. h.translation };

    ghost product_within = { λ m n h k. along_within n.along h.translation k.translation };
}

#[cfg(test)]
mod tests {
    use super::*;
    use fractions::UNIT;

    // -y,x,z+1/4
    const SCREW: RodMotion = RodMotion {
        a: [[0, -1], [1, 0]],
        e: Sign::Plus,
        t: UNIT / 4,
    };

    // x,-y,-z+1/2
    const HALF_TURN: RodMotion = RodMotion {
        a: [[1, 0], [0, -1]],
        e: Sign::Minus,
        t: UNIT / 2,
    };

    #[test]
    fn a_screw_and_then_a_half_turn_across(rt: HostRuntime) {
        let both = RodMotion {
            a: [[0, -1], [-1, 0]],
            e: Sign::Minus,
            t: UNIT / 4,
        };
        assert!(rt; SCREW.then(&HALF_TURN) == both);
        assert!(rt; SCREW.then(&RodMotion::identity()) == SCREW);
    }

    #[test]
    fn a_screw_is_undone_and_a_dilation_is_not(rt: HostRuntime) {
        let undone = RodMotion {
            a: [[0, 1], [-1, 0]],
            e: Sign::Plus,
            t: -UNIT / 4,
        };
        let dilation = RodMotion {
            a: [[2, 0], [0, 1]],
            e: Sign::Plus,
            t: 0,
        };
        assert!(rt; SCREW.back() == Some(undone));
        assert!(rt; HALF_TURN.back() == Some(HALF_TURN));
        assert!(rt; dilation.back() == None);
    }

    #[test]
    fn the_block_form_is_along_the_third_axis(rt: HostRuntime) {
        let block = Motion3 {
            w: [[1, 0, 0], [0, -1, 0], [0, 0, -1]],
            t: [Part(0), Part(0), Part(UNIT / 2)],
        };
        assert!(rt; HALF_TURN.triple() == block);
    }
}
