// What lowest terms are, as contracts of functions that do nothing.
ghost use Rattle.std.specs.Prelude.{◌≡◌, ℤ, pos, ◌*ℤ◌};
ghost use Rattle.fractions.specs.Fraction.{Fraction, IsFraction, SameFraction, IsInLowestTerms};
ghost use Rattle.fractions.specs.LowestTerms.{lowest_terms, IsLowestForm, IsNoLarger};

/// A number has one fraction in lowest terms with a denominator of at least 1.
pub fn one_lowest_form()
    ensures { (q r : Fraction) → IsFraction q → IsFraction r → IsInLowestTerms q →
        IsInLowestTerms r → SameFraction q r → q ≡ r }
{}

/// Division by the greatest common divisor gives that fraction.
pub fn lowest_form_by_divisor()
    ensures lowest { (num den : ℤ) → ¬ (den ≡ pos 0) → IsLowestForm (lowest_terms num den) num den }
    ensures no_larger { (num den : ℤ) → IsNoLarger (lowest_terms num den) num den }
{}

/// So the lowest terms tell whether two fractions are one number.
pub fn lowest_terms_of_one_number()
    ensures same { (num den num' den' : ℤ) → ¬ (den ≡ pos 0) → ¬ (den' ≡ pos 0) →
        num *ℤ den' ≡ num' *ℤ den → lowest_terms num den ≡ lowest_terms num' den' }
    ensures only { (q : Fraction) (num den : ℤ) → ¬ (den ≡ pos 0) → IsLowestForm q num den →
        q ≡ lowest_terms num den }
{}
