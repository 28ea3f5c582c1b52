// `layers`: the report of all heights of an orientation.
ghost use Rattle.std.specs.Prelude.{◌≡◌, IfOk, IfSome, map, option_map, string_bytes};
ghost use Rattle.requests.specs.Questions.{IsAskedInRange, result_map};
ghost use Rattle.requests.specs.Views.{asked_of, frame_of, indices_of};
ghost use Rattle.command.specs.Layers.{layers_asked, layers_words};

use requests::{
    Form, Format, FrameWord, IndexWords, PlaneWords, Planes, Question, Refusal, Request,
    split_form, split_format, split_frame, split_indices, within_limits,
};

/// What the words behind `layers` ask for, or the first limit that they pass: `h k l` or `h k i l`, behind it a frame,
/// `--json` and `--cif`, in this order and each or none.
pub fn read_layers(arguments: &[String]) -> Option<Result<Request, Refusal>>
    ensures is { option_map (λ read. result_map asked_of read) result
        ≡ layers_words (map string_bytes arguments.now) }
    ensures range { IfSome result
        (λ read. IfOk read (λ request. IsAskedInRange (asked_of request))) }
{
    let (indices, others) = split_indices(arguments)?;
    let (frame, others) = split_frame(others)?;
    let (form, others) = split_form(others);
    let (format, others) = split_format(others);
    match others {
        [] => Some(heights_request(indices, frame, form, format)),
        _ => None,
    }
}

/// The request of all heights, if the words are within the limits.
fn heights_request(
    indices: IndexWords,
    frame: Option<FrameWord>,
    form: Form,
    format: Format,
) -> Result<Request, Refusal>
    ensures is { result_map asked_of result
        ≡ layers_asked (indices_of indices) (option_map frame_of frame) form format }
    ensures range { IfOk result (λ request. IsAskedInRange (asked_of request)) }
{
    let Planes { plane, basis } = within_limits(PlaneWords {
        indices,
        frame,
        s: None,
    })?;
    let question = Question::Layers { plane, basis, form };
    Ok(Request::About { format, question })
}
