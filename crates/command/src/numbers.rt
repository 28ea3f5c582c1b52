// Numbers that words name.
ghost use Rattle.std.specs.Prelude.{◌≡◌, ◌≢◌, ◌≤◌, ◌↔◌, IfSome, IsTrue, length, slice_index};
ghost use Rattle.command.specs.Numbers.{number_word};

/// The most digits that a number has.
const MOST_DIGITS: usize = 3;

/// Whether a word has no plus sign first, and at most three bytes.
fn is_short_number(word: &[u8]) -> bool
    ensures { IsTrue result ↔ ((slice_index word.now 0 ≢ 43) × (length word.now ≤ 3)) }
{
    match word {
        [b'+', ..] => false,
        _ => word.len() <= MOST_DIGITS,
    }
}

/// The number from 1 to `most` that a word is: one to three digits.
pub fn read_number(word: &str, most: u16) -> Option<u16>
    ensures is { result ≡ number_word most word.now }
    ensures within { IfSome result (λ n. (1 ≤ n) × (n ≤ most)) }
{
    if !is_short_number(word.as_bytes()) {
        return None;
    }
    let n = word.parse::<u16>().ok()?;
    if n == 0 || n > most {
        return None;
    }
    Some(n)
}
