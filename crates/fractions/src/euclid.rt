// Euclid's algorithm.
ghost use Rattle.std.specs.Int.{IsGcd};
ghost use Rattle.std.specs.Prelude.{◌≡◌, ◌^◌, pos};
ghost use Rattle.integers.specs.Size.{IsWithin};
ghost use Rattle.fractions.specs.LowestTerms.{gcd, signed_gcd};

// The greatest common divisor, with the sign of `den`.
pub fn signed_divisor(num: i128, den: i128) -> i128
    requires small { IsWithin (2 ^ 120) den }
    requires nonzero { ¬ (den ≡ pos 0) }
    ensures { result ≡ signed_gcd num den }
{
    let divisor = greatest_common_divisor(num.unsigned_abs(), den.unsigned_abs()) as i128;
    if den < 0 { -divisor } else { divisor }
}

/// The greatest common divisor of two numbers, by Euclid's remainders. Of 0 and 0 it is 0.
pub fn greatest_common_divisor(a: u128, b: u128) -> u128
    ensures is { result ≡ gcd a b }
    ensures greatest { IsGcd a b result }
{
    let (mut greater, mut less) = (a, b);
    while less > 0 {
        (greater, less) = (less, greater % less);
    }
    greater
}
