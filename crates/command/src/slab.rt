// `slab`: the operations that map a slab to itself.
ghost use Rattle.std.specs.Prelude.{◌≡◌, IfOk, IfSome, map, option_map, string_bytes};
ghost use Rattle.requests.specs.Questions.{IsAskedInRange, result_map};
ghost use Rattle.requests.specs.Views.{asked_of, slab_words as slab_words_of};
ghost use Rattle.command.specs.Slabs.{slab_asked, slab_first, slab_words};

use requests::{
    Format, Planes, Question, Refusal, Request, SlabWords, split_format, split_frame, split_ratio,
    split_three_indices, within_slab_limits,
};

/// The slab that the first words are, `h k l s1 s2` and a frame behind it, and the words behind it.
fn split_slab(words: &[String]) -> Option<(SlabWords, &[String])>
    ensures { option_map (λ r. (slab_words_of r.0, map string_bytes r.1.now)) result
        ≡ slab_first (map string_bytes words.now) }
{
    let (indices, others) = split_three_indices(words)?;
    let (low, others) = split_ratio(others)?;
    let (high, others) = split_ratio(others)?;
    let (frame, others) = split_frame(others)?;
    let slab = SlabWords {
        indices,
        frame,
        low,
        high,
    };
    Some((slab, others))
}

/// What the words behind `slab` ask for, or the first limit that they pass: a slab, and last `--cif`.
pub fn read_slab(arguments: &[String]) -> Option<Result<Request, Refusal>>
    ensures is { option_map (λ read. result_map asked_of read) result
        ≡ slab_words (map string_bytes arguments.now) }
    ensures range { IfSome result
        (λ read. IfOk read (λ request. IsAskedInRange (asked_of request))) }
{
    let (slab, others) = split_slab(arguments)?;
    let (format, others) = split_format(others);
    match others {
        [] => Some(slab_request(slab, format)),
        _ => None,
    }
}

/// The request of a slab, if the words are within the limits.
fn slab_request(words: SlabWords, format: Format) -> Result<Request, Refusal>
    ensures is { result_map asked_of result ≡ slab_asked (slab_words_of words) format }
    ensures range { IfOk result (λ request. IsAskedInRange (asked_of request)) }
{
    let Planes { plane, basis } = within_slab_limits(words)?;
    let question = Question::Slab {
        plane,
        basis,
        low: words.low,
        high: words.high,
    };
    Ok(Request::About { format, question })
}
