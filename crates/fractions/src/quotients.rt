// Quotients that are whole numbers.
ghost use Rattle.std.specs.Prelude.{◌≡◌, ◌≤◌, ◌*ℤ◌, ◌≤ℤ◌, ℤ, pos, IfSome, MatchOption, unsigned_abs};

/// The quotient of two numbers, where it is a whole number. None comes exactly where it is not.
pub fn whole_quotient(num: i128, den: i128) -> Option<i128>
    requires { pos 1 ≤ℤ den }
    ensures is { MatchOption result ((q : ℤ) → ¬ (den *ℤ q ≡ num)) (λ q. den *ℤ q ≡ num) }
    ensures small { IfSome result (λ q. unsigned_abs q ≤ unsigned_abs num) }
{
    if num % den == 0 {
        Some(num / den)
    } else {
        None
    }
}
