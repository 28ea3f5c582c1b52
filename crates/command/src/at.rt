// `at`: the operations that map one plane to itself.
ghost use Rattle.std.specs.Prelude.{◌≡◌, IfOk, IfSome, map, option_map, string_bytes};
ghost use Rattle.fractions.specs.FractionOf.{fraction_of};
ghost use Rattle.requests.specs.Questions.{IsAskedInRange, result_map};
ghost use Rattle.requests.specs.Views.{asked_of, frame_of, indices_of};
ghost use Rattle.command.specs.At.{at_asked, at_words};

use fractions::Ratio;
use requests::{
    Format, FrameWord, IndexWords, PlaneWords, Planes, Question, Refusal, Request, split_format,
    split_frame, split_ratio, split_three_indices, within_limits,
};

/// What the words behind `at` ask for, or the first limit that they pass: `h k l s`, behind it a frame, and last `--cif`.
pub fn read_at(arguments: &[String]) -> Option<Result<Request, Refusal>>
    ensures is { option_map (λ read. result_map asked_of read) result
        ≡ at_words (map string_bytes arguments.now) }
    ensures range { IfSome result
        (λ read. IfOk read (λ request. IsAskedInRange (asked_of request))) }
{
    let (indices, others) = split_three_indices(arguments)?;
    let (s, others) = split_ratio(others)?;
    let (frame, others) = split_frame(others)?;
    let (format, others) = split_format(others);
    match others {
        [] => Some(height_request(indices, s, frame, format)),
        _ => None,
    }
}

/// The request of a height, if the words are within the limits.
fn height_request(
    indices: IndexWords,
    s: Ratio,
    frame: Option<FrameWord>,
    format: Format,
) -> Result<Request, Refusal>
    ensures is { result_map asked_of result
        ≡ at_asked (indices_of indices) (fraction_of s) (option_map frame_of frame) format }
    ensures range { IfOk result (λ request. IsAskedInRange (asked_of request)) }
{
    let Planes { plane, basis } = within_limits(PlaneWords {
        indices,
        frame,
        s: Some(s),
    })?;
    let question = Question::At { plane, basis, s };
    Ok(Request::About { format, question })
}
