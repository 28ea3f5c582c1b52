// The reader of ratios.
ghost use Rattle.std.specs.Prelude.{◌≡◌, ◌≤◌, ◌^◌, ◌<◌, length, pos, ◌<ℤ◌, IfOk, take_while};
ghost use Rattle.std.specs.Result.{result_err};
ghost use Rattle.std.specs.Char.{is_ascii_digit};
ghost use Rattle.std.specs.Str.Parse.{AllDigits, digits_value};
ghost use Rattle.integers.specs.Size.{IsWithin};
ghost use Rattle.fractions.specs.FractionOf.{fraction_of};
ghost use Rattle.fractions.specs.Fraction.{IsFractionWithin};
ghost use Rattle.fractions.specs.LowestTerms.{lowest_terms, IsLowestForm};
ghost use Rattle.fractions.specs.WrittenRatio.{
  behind_digits,
  number_at,
  run_fault,
  numerator,
  numerator_place,
  numerator_end,
  denominator,
  denominator_behind,
  end_behind,
  fault_behind,
  ratio_end,
  ratio_fault,
};

use crate::ratio::Ratio;

/// The most digits that a numerator or a denominator is read from.
pub const MOST_DIGITS: usize = 18;

/// Why a text is no ratio, and the index of the byte where that shows.
#[derive(Clone, Copy, PartialEq, Eq, Debug)]
pub enum FractionFault {
    /// No digit stands where a run of digits begins.
    NoDigit(usize),
    /// A run of digits goes past [`MOST_DIGITS`]: the digit behind them.
    TooLong(usize),
    /// The digits of the denominator are all zeros: the first of them.
    ZeroDenominator(usize),
}

/// The ratio that is written at the index `at`, and the index behind it.
///
/// It is an optional `+` or `-`, the longest run of digits, and, if a `/` follows, the longest run of digits behind it.
/// The first fault from the left is given, and `TooLong` before `ZeroDenominator`.
pub fn read_ratio(bytes: &[u8], at: usize) -> Result<(Ratio, usize), FractionFault>
    requires { at ≤ length bytes.now }
    ensures value { IfOk result (λ read. fraction_of read.0
        ≡ lowest_terms (numerator bytes.now at) (denominator bytes.now at)) }
    ensures number { IfOk result (λ read. IsLowestForm (fraction_of read.0)
        (numerator bytes.now at) (denominator bytes.now at)) }
    ensures small { IfOk result (λ read. IsFractionWithin (10 ^ 18) (fraction_of read.0)) }
    ensures end { IfOk result (λ read. read.1 ≡ ratio_end bytes.now at) }
    ensures within { IfOk result (λ read. (at < read.1) × (read.1 ≤ length bytes.now)) }
    ensures fault { result_err result ≡ ratio_fault bytes.now at }
{
    let (num, slash) = read_numerator(bytes, at)?;
    let (den, end) = read_denominator(bytes, slash)?;
    Ok((Ratio::make(num, den).unwrap(), end))
}

// The numerator with its sign, and the index behind it.
fn read_numerator(bytes: &[u8], at: usize) -> Result<(i128, usize), FractionFault>
    requires { at ≤ length bytes.now }
    ensures value { IfOk result (λ read. read.0 ≡ numerator bytes.now at) }
    ensures small { IfOk result (λ read. IsWithin (10 ^ 18) read.0) }
    ensures end { IfOk result (λ read. read.1 ≡ numerator_end bytes.now at) }
    ensures within { IfOk result (λ read. (at < read.1) × (read.1 ≤ length bytes.now)) }
    ensures fault { result_err result ≡ run_fault bytes.now (numerator_place bytes.now at) }
{
    let (place, negative) = match bytes.get(at) {
        Some(b'-') => (at + 1, true),
        Some(b'+') => (at + 1, false),
        _ => (at, false),
    };
    let (size, end) = read_digits(bytes, place)?;
    let size = i128::from(size);
    Ok((if negative { -size } else { size }, end))
}

// The denominator behind a slash, or 1 where no slash stands, and the index behind it.
fn read_denominator(bytes: &[u8], slash: usize) -> Result<(i128, usize), FractionFault>
    requires { slash ≤ length bytes.now }
    ensures value { IfOk result (λ read. read.0 ≡ denominator_behind bytes.now slash) }
    ensures small { IfOk result (λ read. IsWithin (10 ^ 18) read.0) }
    ensures positive { IfOk result (λ read. pos 0 <ℤ read.0) }
    ensures end { IfOk result (λ read. read.1 ≡ end_behind bytes.now slash) }
    ensures within { IfOk result (λ read. (slash ≤ read.1) × (read.1 ≤ length bytes.now)) }
    ensures fault { result_err result ≡ fault_behind bytes.now slash }
{
    if bytes.get(slash) != Some(&b'/') {
        return Ok((1, slash));
    }
    let (den, end) = read_digits(bytes, slash + 1)?;
    if den == 0 {
        return Err(FractionFault::ZeroDenominator(slash + 1));
    }
    Ok((i128::from(den), end))
}

// The number that the run of digits at `place` writes, and the index behind it.
fn read_digits(bytes: &[u8], place: usize) -> Result<(u64, usize), FractionFault>
    requires { place ≤ length bytes.now }
    ensures value { IfOk result (λ read. read.0 ≡ number_at bytes.now place) }
    ensures small { IfOk result (λ read. read.0 < 10 ^ 18) }
    ensures end { IfOk result (λ read. read.1 ≡ behind_digits bytes.now place) }
    ensures within { IfOk result (λ read. (place < read.1) × (read.1 ≤ length bytes.now)) }
    ensures fault { result_err result ≡ run_fault bytes.now place }
{
    let count = digit_count(&bytes[place..]);
    if count == 0 {
        return Err(FractionFault::NoDigit(place));
    }
    if count > MOST_DIGITS {
        return Err(FractionFault::TooLong(place + MOST_DIGITS));
    }
    Ok((number(&bytes[place..place + count]), place + count))
}

// How many digits stand in front.
fn digit_count(bytes: &[u8]) -> usize
    ensures value { result ≡ length (take_while is_ascii_digit bytes.now) }
    ensures within { result ≤ length bytes.now }
{
    bytes
        .iter()
        .take_while(|byte| byte.is_ascii_digit())
        .count()
}

// The number that the digits write.
fn number(digits: &[u8]) -> u64
    requires short { length digits.now ≤ 18 }
    requires digits { AllDigits 10 digits.now }
    ensures value { result ≡ digits_value 10 digits.now }
    ensures small { result < 10 ^ 18 }
{
    let mut number = 0;
    for digit in digits {
        number = number * 10 + u64::from(*digit - b'0');
    }
    number
}
