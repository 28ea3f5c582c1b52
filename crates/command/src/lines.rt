// `lines`: the frieze groups of all lines of a plane group.
ghost use Rattle.std.specs.Prelude.{◌≡◌, IfOk, IfSome, pos, map, option_map, string_bytes};
ghost use Rattle.requests.specs.Questions.{IsAskedInRange, result_map};
ghost use Rattle.requests.specs.Views.{asked_of, indices_of};
ghost use Rattle.command.specs.Lines.{lines_asked, lines_words};

use requests::{
    IndexWords, PlaneWords, Planes, Refusal, Request, split_two_indices, within_limits,
};

/// What the words behind `lines` ask for, or the first limit that they pass: `h k`. The group is listed by pairs.
pub fn read_lines(arguments: &[String]) -> Option<Result<Request, Refusal>>
    ensures is { option_map (λ read. result_map asked_of read) result
        ≡ lines_words (map string_bytes arguments.now) }
    ensures range { IfSome result
        (λ read. IfOk read (λ request. IsAskedInRange (asked_of request))) }
{
    let (indices, others) = split_two_indices(arguments)?;
    match others {
        [] => Some(lines_request(indices)),
        _ => None,
    }
}

/// The request of the lines (h k), if their indices are within the limits.
fn lines_request(indices: IndexWords) -> Result<Request, Refusal>
    requires { indices.l ≡ pos 0 }
    ensures is { result_map asked_of result ≡ lines_asked (indices_of indices) }
    ensures range { IfOk result (λ request. IsAskedInRange (asked_of request)) }
{
    let Planes { plane, .. } = within_limits(PlaneWords {
        indices,
        frame: None,
        s: None,
    })?;
    Ok(Request::Lines { plane })
}
