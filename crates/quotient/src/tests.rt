// Steps in a plane modulo the steps along its lines: an implementation of the traits, and each call on it.
ghost use Rattle.std.specs.Prelude.{◌≡◌, ◌≤◌, ◌^◌, ℤ, pos, ◌+ℤ◌, ◌-ℤ◌, neg_ℤ, unsigned_abs};
ghost use Rattle.std.proofs.Common.{◌∙◌, ap, arith, refl, sym};
ghost use Rattle.std.proofs.lemmas.Bool.Decides.{Decides-and, Decides-int_eq, Decides-like};
ghost use Rattle.std.proofs.lemmas.Int.{ints};
ghost use Rattle.integers.proofs.Ring.{add_assoc, add_comm, add_neg, add_zero, zero_add};

use super::{GroupFault, Motion, Quotient, check_group, distinct, find};
use std::test::Fail;

/// A translation of the plane.
#[derive(Clone, Copy, PartialEq, Eq, Debug)]
struct Step {
    across: i64,
    along: i64,
}

impl Motion for Step {
    ghost Meaning = { ℤ × ℤ };

    ghost meaning = { λ m. (m.across, m.along) };

    ghost product = { λ a b. (a.0 +ℤ b.0, a.1 +ℤ b.1) };

    ghost one = { (pos 0, pos 0) };

    ghost IsSmall = { λ a. (unsigned_abs a.0 ≤ 2 ^ 40) × (unsigned_abs a.1 ≤ 2 ^ 40) };

    ghost MovesWithin = { λ n a. (unsigned_abs a.0 ≤ n) × (unsigned_abs a.1 ≤ n) };

    fn identity() -> Step {
        Step {
            across: 0,
            along: 0,
        }
    }

    fn then(&self, next: &Step) -> Step {
        Step {
            across: self.across + next.across,
            along: self.along + next.along,
        }
    }

    fn back(&self) -> Option<Step> {
        Some(Step {
            across: -self.across,
            along: -self.along,
        })
    }

    ghost monoid = { record {
      assoc = λ a b c i. (add_assoc a.0 b.0 c.0 i, add_assoc a.1 b.1 c.1 i);
      one_left = λ a i. (zero_add a.0 i, zero_add a.1 i);
      one_right = λ a i. (add_zero a.0 i, add_zero a.1 i);
    } };

    ghost equal = { λ a b. Decides-like _ (λ p i. (p.0 i, p.1 i)) (λ e. (λ i. (e i).0, λ i. (e i).1))
        (Decides-and _ _ (Decides-int_eq a.across b.across) (Decides-int_eq a.along b.along)) };

    ghost moves_more = { λ n m a le h. (Prim.omega arith, Prim.omega arith) };

    ghost one_within = { (Prim.omega arith, Prim.omega arith) };

    ghost small_within = { λ a h. h };

    ghost product_within = { λ a b h k. (Prim.omega (arith, ints), Prim.omega (arith, ints)) };
}

/// The lines of the plane, along which each step is a shift.
struct Lines;

impl Quotient for Lines {
    type M = Step;

    const REACH: i64 = 1 << 52;

    ghost REACH = { pos (2 ^ 52) };

    ghost IsShift = { λ q m. m.across ≡ pos 0 };

    ghost home_of = { λ q m. record m { along = pos 0 } };

    fn is_shift(&self, m: &Step) -> bool {
        m.across == 0
    }

    fn home(&self, m: &Step) -> Step {
        Step {
            across: m.across,
            along: 0,
        }
    }

    fn keeps(&self, _m: &Step) -> bool {
        true
    }

    ghost by_meaning = { λ q a b e h. sym (λ i. (e i).0) ∙ h };

    ghost shifts = { λ q. record {
      identity = (record { across = pos 0; along = pos 0 }, refl, refl);
      products = λ s t (a, h, e) (b, k, f).
          (record { across = s.0 +ℤ t.0; along = s.1 +ℤ t.1 }, λ i. (sym (λ j. (e j).0) ∙ h) i +ℤ (sym (λ j. (f j).0) ∙ k) i, refl);
      inverses = λ s (a, h, e). (
        (neg_ℤ s.0, neg_ℤ s.1),
        (record { across = neg_ℤ s.0; along = neg_ℤ s.1 }, ap neg_ℤ (sym (λ j. (e j).0) ∙ h), refl),
        record { after = λ i. (add_neg s.0 i, add_neg s.1 i); before = λ i. ((add_comm (neg_ℤ s.0) s.0 ∙ add_neg s.0) i, (add_comm (neg_ℤ s.1) s.1 ∙ add_neg s.1) i) },
      );
    } };

    ghost home_is_same = { λ q m. record {
      shift = (pos 0, neg_ℤ m.along);
      is_shift = (record { across = pos 0; along = neg_ℤ m.along }, refl, refl);
      is = λ i. (sym (add_zero m.across) i, sym (add_neg m.along) i);
    } };

    ghost homes = { λ q m n. (
      λ s i. (((λ j. (s.is j).0) ∙ ap (λ z. n.across +ℤ z) (sym (λ j. (s.is_shift.2 j).0) ∙ s.is_shift.1) ∙ add_zero n.across) i, pos 0),
      λ e. let rejoin : m.along ≡ n.along +ℤ (m.along -ℤ n.along) = Prim.omega (arith, ints) in record {
        shift = (pos 0, m.along -ℤ n.along);
        is_shift = (record { across = pos 0; along = m.along -ℤ n.along }, refl, refl);
        is = λ i. (((λ j. (e j).0) ∙ sym (add_zero n.across)) i, rejoin i);
      },
    ) };
}

const AT_REST: Step = Step {
    across: 0,
    along: 0,
};

const ALONG: Step = Step {
    across: 0,
    along: 2,
};

const ACROSS: Step = Step {
    across: 1,
    along: 0,
};

#[test]
fn the_first_fault_is_told_with_positions_from_one(rt: HostRuntime) {
    assert_eq!(rt; check_group(&Lines, &[ALONG]), Ok(()));
    assert_eq!(rt; check_group(&Lines, &[ACROSS]), Err(GroupFault::NoIdentity));
    assert_eq!(rt;
        check_group(&Lines, &[AT_REST, ACROSS]),
        Err(GroupFault::NotClosed(2, 2))
    );
}

#[test]
fn the_first_that_is_the_same_is_found(rt: HostRuntime) {
    assert_eq!(rt; find(&Lines, &[ACROSS, AT_REST, ALONG], &ALONG), Some(1));
    assert_eq!(rt; find(&Lines, &[ACROSS], &ALONG), None);
}

#[test]
fn the_first_of_each_are_kept(rt: HostRuntime) -> Result<(), Fail> {
    let kept = distinct(rt.alloc(), &Lines, &[ALONG, AT_REST, ACROSS, ALONG])?;
    assert_eq!(rt; kept.as_slice(), [ALONG, ACROSS].as_slice());
    Ok(())
}
