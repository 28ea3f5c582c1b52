// `rod`: the operations that map one line to itself, and their rod type.
ghost use Rattle.std.specs.Prelude.{◌≡◌, IfOk, IfSome, map, option_map, string_bytes};
ghost use Rattle.requests.specs.Questions.{IsAskedInRange, result_map};
ghost use Rattle.requests.specs.RodViews.{line_words};
ghost use Rattle.requests.specs.Views.{asked_of};
ghost use Rattle.command.specs.Rods.{line_first, rod_asked, rod_words};

use requests::{
    Format, Line, LineWords, Question, Refusal, Request, split_direction, split_format,
    split_point, split_rod_frame, within_line_limits,
};

/// The line that the first words are, `u v w x y z` and a rod frame behind it, and the words behind it.
fn split_line(words: &[String]) -> Option<(LineWords, &[String])>
    ensures { option_map (λ r. (line_words r.0, map string_bytes r.1.now)) result
        ≡ line_first (map string_bytes words.now) }
{
    let (direction, others) = split_direction(words)?;
    let (point, others) = split_point(others)?;
    let (frame, others) = split_rod_frame(others)?;
    let line = LineWords {
        direction,
        frame,
        point,
    };
    Some((line, others))
}

/// What the words behind `rod` ask for, or the first limit that they pass: a line, and last `--cif`.
pub fn read_rod(arguments: &[String]) -> Option<Result<Request, Refusal>>
    ensures is { option_map (λ read. result_map asked_of read) result
        ≡ rod_words (map string_bytes arguments.now) }
    ensures range { IfSome result
        (λ read. IfOk read (λ request. IsAskedInRange (asked_of request))) }
{
    let (line, others) = split_line(arguments)?;
    let (format, others) = split_format(others);
    match others {
        [] => Some(line_request(line, format)),
        _ => None,
    }
}

/// The request of a line, if the words are within the limits.
fn line_request(words: LineWords, format: Format) -> Result<Request, Refusal>
    ensures is { result_map asked_of result ≡ rod_asked (line_words words) format }
    ensures range { IfOk result (λ request. IsAskedInRange (asked_of request)) }
{
    let Line {
        direction,
        basis,
        point,
    } = within_line_limits(words)?;
    let question = Question::Rod {
        direction,
        basis,
        point,
    };
    Ok(Request::About { format, question })
}
