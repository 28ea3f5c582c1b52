// The heights of a slab: their order, and the height of its middle.
ghost use Rattle.std.specs.Prelude.{◌≡◌, ◌^◌, ◌↔◌, IsTrue};
ghost use Rattle.fractions.specs.Fraction.{IsFractionWithin};
ghost use Rattle.fractions.specs.FractionOf.{fraction_of};
ghost use Rattle.symmetry.specs.Scans.{IsLower};
ghost use Rattle.slabs.specs.Slabs.{half_sum};

use fractions::Ratio;

/// Whether low is above high, so that no point lies in the slab from low to high. Their numerators and denominators are
/// at most 10^18 in size.
pub fn is_empty(low: Ratio, high: Ratio) -> bool
    requires low { IsFractionWithin (10 ^ 18) (fraction_of low) }
    requires high { IsFractionWithin (10 ^ 18) (fraction_of high) }
    ensures { IsTrue result ↔ IsLower (fraction_of high) (fraction_of low) }
{
    high.num() * low.den() < low.num() * high.den()
}

/// Half the sum of two heights, in lowest terms: the height of the plane in the middle of the slab between them.
///
/// Their numerators and denominators are at most [`MOST_HEIGHT`](scanning::MOST_HEIGHT) in size; those of the middle
/// may be larger.
pub fn middle(low: Ratio, high: Ratio) -> Ratio
    requires low { IsFractionWithin 1000000000 (fraction_of low) }
    requires high { IsFractionWithin 1000000000 (fraction_of high) }
    ensures { fraction_of result ≡ half_sum (fraction_of low) (fraction_of high) }
{
    let sum = low.num() * high.den() + high.num() * low.den();
    Ratio::make(sum, 2 * low.den() * high.den()).unwrap()
}
