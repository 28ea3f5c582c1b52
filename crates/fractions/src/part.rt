// Whole numbers of parts.
ghost use Rattle.std.specs.Prelude.{◌≡◌, ◌+ℤ◌, ◌-ℤ◌, ◌*ℤ◌, FitsSigned};
ghost use Rattle.std.specs.Int.{w64};
ghost use Rattle.fractions.specs.FractionOf.{fraction_of};
ghost use Rattle.fractions.specs.LowestTerms.{lowest_terms};
ghost use Rattle.fractions.specs.Parts.{reduced_parts, IsReduced};

use crate::ratio::Ratio;

/// How many parts a cell edge has: translations are counted in these.
pub const UNIT: i64 = 48;

/// A whole number of parts, each of which is 1/[`UNIT`] of a cell edge.
#[derive(Clone, Copy, PartialEq, Eq, PartialOrd, Ord, Debug)]
pub struct Part(pub i64);

impl Part {
    /// The sum of two translations, which has to fit an `i64`.
    pub fn add(self, other: Part) -> Part
        requires { FitsSigned w64 (self.0 +ℤ other.0) }
        ensures { result.0 ≡ self.0 +ℤ other.0 }
    {
        Part(self.0 + other.0)
    }

    /// The difference of two translations, which has to fit an `i64`.
    pub fn sub(self, other: Part) -> Part
        requires { FitsSigned w64 (self.0 -ℤ other.0) }
        ensures { result.0 ≡ self.0 -ℤ other.0 }
    {
        Part(self.0 - other.0)
    }

    /// The translation `n` times, which has to fit an `i64`.
    pub fn times(self, n: i64) -> Part
        requires { FitsSigned w64 (self.0 *ℤ n) }
        ensures { result.0 ≡ self.0 *ℤ n }
    {
        Part(self.0 * n)
    }

    /// The translation modulo whole cell edges: from 0 to below [`UNIT`].
    pub fn reduced(self) -> Part
        ensures exact { result.0 ≡ reduced_parts self.0 }
        ensures reduced { IsReduced self.0 result.0 }
    {
        Part(self.0.rem_euclid(UNIT))
    }

    /// The number of parts as a ratio of the cell edge.
    pub fn in_edges(self) -> Ratio
        ensures { fraction_of result ≡ lowest_terms self.0 UNIT }
    {
        Ratio::make(i128::from(self.0), i128::from(UNIT)).unwrap()
    }
}
