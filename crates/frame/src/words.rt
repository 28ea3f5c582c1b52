// The orientation and the format of the input that the words are, or the first refusal that applies.
ghost use Rattle.std.specs.Prelude.{◌≡◌, map, option_map, string_bytes};
ghost use Rattle.requests.specs.Questions.{result_map};
ghost use Rattle.requests.specs.Views.{indices_of};
ghost use Rattle.frame.specs.Words.{asked_by, row_asked, row_words, said_of};

use motions::Miller;
use requests::{
    Format, IndexWords, PlaneWords, Planes, Refusal, split_format, split_indices, within_limits,
};

/// The orientation of the indices, with the format, or the first limit that they pass.
fn plane_of_indices(indices: IndexWords, format: Format) -> Result<(Miller, Format), Refusal>
    ensures { result_map said_of result ≡ row_asked (indices_of indices) format }
{
    let Planes { plane, .. } = within_limits(PlaneWords {
        indices,
        frame: None,
        s: None,
    })?;
    Ok((plane, format))
}

/// The orientation of the words `h k l` or `h k i l`, with the format by `--cif` behind them, or the first limit that they
/// pass. `None` where they are no such words.
fn plane_of_words(words: &[String]) -> Option<Result<(Miller, Format), Refusal>>
    ensures { option_map (λ read. result_map said_of read) result
        ≡ row_words (map string_bytes words.now) }
{
    let (indices, others) = split_indices(words)?;
    let (format, others) = split_format(others);
    match others {
        [] => Some(plane_of_indices(indices, format)),
        _ => None,
    }
}

/// The orientation that the words are, and the format of the input.
///
/// The refusals, in this order: `Usage`, the words are no indices; `FourIndex`, i is not -(h+k); `OutOfRange`, `AllZero`,
/// `NotCoprime`, the indices are no Miller indices.
pub fn read_words(words: &[String]) -> Result<(Miller, Format), Refusal>
    ensures { result_map said_of result ≡ asked_by (map string_bytes words.now) }
{
    match plane_of_words(words) {
        Some(read) => read,
        None => Err(Refusal::Usage),
    }
}
