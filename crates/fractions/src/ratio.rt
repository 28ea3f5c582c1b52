// Fractions in lowest terms.
ghost use Rattle.fractions.specs.Fraction.{IsFraction, IsInLowestTerms};

use crate::euclid::signed_divisor;

/// A fraction in lowest terms, its denominator at least 1: so each rational number is one `Ratio`.
#[derive(Clone, Copy, PartialEq, Eq, Debug)]
pub struct Ratio {
    num: i128,
    den: i128,
    pub ghost positive: { IsFraction (record { num = num; den = den }) },
    pub ghost lowest: { IsInLowestTerms (record { num = num; den = den }) },
}

impl Ratio {
    ghost use Rattle.std.specs.Prelude.{◌≡◌, ◌^◌, ◌↔◌, pos, IsNone, IfSome};
    ghost use Rattle.integers.specs.Size.{IsWithin};
    ghost use Rattle.fractions.specs.FractionOf.{fraction_of};
    ghost use Rattle.fractions.specs.LowestTerms.{lowest_terms, IsLowestForm, IsNoLarger};

    /// `num` over `den` in lowest terms, and `None` exactly at `den = 0`. Both are at most 2^120 in size.
    pub fn make(num: i128, den: i128) -> Option<Ratio>
        requires num_small { IsWithin (2 ^ 120) num }
        requires den_small { IsWithin (2 ^ 120) den }
        ensures none { IsNone result ↔ (den ≡ pos 0) }
        ensures some { IfSome result (λ r. IsLowestForm (fraction_of r) num den) }
        ensures exact { IfSome result (λ r. fraction_of r ≡ lowest_terms num den) }
        ensures no_larger { IfSome result (λ r. IsNoLarger (fraction_of r) num den) }
    {
        if den == 0 {
            return None;
        }
        // It has the sign of `den`, so the new denominator is positive.
        let divisor = signed_divisor(num, den);
        Some(Ratio {
            num: num / divisor,
            den: den / divisor,
        })
    }

    /// The numerator, which has the sign of the number.
    pub fn num(&self) -> i128
        ensures { result ≡ (fraction_of self.now).num }
    {
        self.num
    }

    /// The denominator: at least 1.
    pub fn den(&self) -> i128
        ensures { result ≡ (fraction_of self.now).den }
    {
        self.den
    }
}
