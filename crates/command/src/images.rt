// `images`: the images of an orientation.
ghost use Rattle.std.specs.Prelude.{◌≡◌, IfOk, IfSome, map, option_map, string_bytes};
ghost use Rattle.requests.specs.Questions.{IsAskedInRange, result_map};
ghost use Rattle.requests.specs.Views.{asked_of, indices_of};
ghost use Rattle.command.specs.Images.{images_asked, images_words};

use requests::{
    Format, IndexWords, PlaneWords, Planes, Question, Refusal, Request, split_format,
    split_three_indices, within_limits,
};

/// What the words behind `images` ask for, or the first limit that they pass: `h k l`, and last `--cif`.
pub fn read_images(arguments: &[String]) -> Option<Result<Request, Refusal>>
    ensures is { option_map (λ read. result_map asked_of read) result
        ≡ images_words (map string_bytes arguments.now) }
    ensures range { IfSome result
        (λ read. IfOk read (λ request. IsAskedInRange (asked_of request))) }
{
    let (indices, others) = split_three_indices(arguments)?;
    let (format, others) = split_format(others);
    match others {
        [] => Some(images_request(indices, format)),
        _ => None,
    }
}

/// The request of the images of an orientation, if the words are within the limits.
fn images_request(indices: IndexWords, format: Format) -> Result<Request, Refusal>
    ensures is { result_map asked_of result ≡ images_asked (indices_of indices) format }
    ensures range { IfOk result (λ request. IsAskedInRange (asked_of request)) }
{
    let Planes { plane, .. } = within_limits(PlaneWords {
        indices,
        frame: None,
        s: None,
    })?;
    let question = Question::Images { plane };
    Ok(Request::About { format, question })
}
