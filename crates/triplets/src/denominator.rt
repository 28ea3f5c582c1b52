// The denominators of a triplet: the divisors of `UNIT`.
ghost use Rattle.std.specs.Prelude.{◌≡◌, ◌<◌, ◌≤◌};
ghost use Rattle.triplets.specs.Denominators.{unit, parts, further_digit};

use fractions::UNIT;

/// How many parts a cell edge has.
pub const PARTS: u32 = UNIT as u32;

/// How many parts one over the denominator is.
pub fn parts_over(denominator: u32) -> u32
    requires { 0 < denominator }
    ensures { result ≡ parts denominator }
{
    PARTS / denominator
}

/// The denominator with one digit more than the number, which is 0 before the first digit.
pub fn with_digit(number: u32, digit: u32) -> Option<u32>
    requires number { number ≤ unit }
    requires digit { digit < 10 }
    ensures { result ≡ further_digit number digit }
{
    let longer = 10 * number + digit;
    if longer > 0 && PARTS % longer == 0 {
        Some(longer)
    } else {
        None
    }
}
