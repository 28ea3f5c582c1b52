// The writer of ratios.
ghost use Rattle.std.specs.Prelude.{◌≡◌, IfOk};
ghost use Rattle.fractions.specs.FractionOf.{fraction_of};
ghost use Rattle.fractions.specs.RatioText.{ratio_text};

use crate::part::Part;
use crate::ratio::Ratio;
use std::alloc::{AllocError, Global};
use std::fmt;

/// Memory ran out.
pub type NoMemory = AllocError;

/// The numerator in decimal, and behind it `/` and the denominator where that is above 1.
impl fmt::Display for Ratio {
    ghost use Rattle.std.specs.Prelude.{Some};
    ghost use Rattle.fractions.specs.FractionOf.{fraction_of};
    ghost use Rattle.fractions.specs.RatioText.{ratio_text};

    ghost output = { λ r. Some (ratio_text (fraction_of r)) };

    fn fmt<W: fmt::Write>(&self, f: &mut fmt::Formatter<W>) -> fmt::Result {
        let num = self.num();
        let den = self.den();
        if den > 1 {
            write!(f, "{num}/{den}")
        } else {
            write!(f, "{num}")
        }
    }
}

/// The parts as a ratio of the cell edge.
impl fmt::Display for Part {
    ghost use Rattle.std.specs.Prelude.{Some};
    ghost use Rattle.fractions.specs.LowestTerms.{lowest_terms};
    ghost use Rattle.fractions.specs.RatioText.{ratio_text};
    ghost use Rattle.fractions.specs.declared.part.TheConstants.{UNIT};

    ghost output = { λ part. Some (ratio_text (lowest_terms part.0 UNIT)) };

    fn fmt<W: fmt::Write>(&self, f: &mut fmt::Formatter<W>) -> fmt::Result {
        let edges = self.in_edges();
        write!(f, "{edges}")
    }
}

/// The text of a ratio: its numerator in decimal, and behind it `/` and the denominator where that is above 1.
pub fn write_ratio(alloc: Global, r: Ratio) -> Result<Vec<u8>, NoMemory>
    ensures { IfOk result (λ text. text.items ≡ ratio_text (fraction_of r)) }
{
    Ok(format!(in alloc; "{r}")?.into_bytes())
}
