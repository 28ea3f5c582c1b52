// The request that the words are, or the first refusal that applies.
ghost use Rattle.std.specs.Prelude.{◌≡◌, IfOk, IfSome, map, option_map, string_bytes};
ghost use Rattle.requests.specs.Questions.{IsAskedInRange, result_map};
ghost use Rattle.command.specs.Requests.{asked_by, command_words};
ghost use Rattle.requests.specs.Views.{asked_of};

use crate::at::read_at;
use crate::images::read_images;
use crate::layers::read_layers;
use crate::lines::read_lines;
use crate::rod::read_rod;
use crate::samples::read_sample;
use crate::slab::read_slab;
use crate::survey::read_survey;
use crate::types::read_types;
use requests::{Refusal, Request};

/// What the words of a command ask for, or the first limit that they pass. `None` where they are no command.
fn read_command(words: &[String]) -> Option<Result<Request, Refusal>>
    ensures is { option_map (λ read. result_map asked_of read) result
        ≡ command_words (map string_bytes words.now) }
    ensures range { IfSome result
        (λ read. IfOk read (λ request. IsAskedInRange (asked_of request))) }
{
    match words {
        [name, arguments @ ..] => match name.as_str() {
            "at" => read_at(arguments),
            "slab" => read_slab(arguments),
            "layers" => read_layers(arguments),
            "images" => read_images(arguments),
            "survey" => read_survey(arguments),
            "rod" => read_rod(arguments),
            "lines" => read_lines(arguments),
            "types" => read_types(arguments),
            "sample" => read_sample(arguments),
            _ => None,
        },
        [] => None,
    }
}

/// The request that the words are.
///
/// The refusals, in this order: `Usage`, the words are no request; `FourIndex`, i is not -(h+k); `OutOfRange`, `AllZero`,
/// `NotCoprime`, the indices are no Miller indices, or those of no direction; `FrameLimit`, `PointLimit`, `HeightLimit`, an
/// entry of the frame, a coordinate of the point or a height is out of range; `EmptySlab`, the first height of a slab is above
/// the second.
pub fn read_words(words: &[String]) -> Result<Request, Refusal>
    ensures is { result_map asked_of result ≡ asked_by (map string_bytes words.now) }
    ensures range { IfOk result (λ request. IsAskedInRange (asked_of request)) }
{
    match read_command(words) {
        Some(read) => read,
        None => Err(Refusal::Usage),
    }
}
