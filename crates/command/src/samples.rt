// `sample`: the counts over the reports of groups made from the layer types.
ghost use Rattle.std.specs.Prelude.{◌≡◌, IfOk, IfSome, map, option_map, string_bytes};
ghost use Rattle.requests.specs.Questions.{IsAskedInRange, result_map};
ghost use Rattle.requests.specs.Views.{asked_of};
ghost use Rattle.command.specs.Samples.{sample_words};

use crate::numbers::read_number;
use requests::{Refusal, Request, Table};

/// The most groups of a sample.
const MOST_GROUPS: u16 = 400;

/// What the words behind `sample` ask for: a number of groups.
pub fn read_sample(arguments: &[String]) -> Option<Result<Request, Refusal>>
    ensures is { option_map (λ read. result_map asked_of read) result
        ≡ sample_words (map string_bytes arguments.now) }
    ensures range { IfSome result
        (λ read. IfOk read (λ request. IsAskedInRange (asked_of request))) }
{
    match arguments {
        [number] => {
            let n = read_number(number.as_str(), MOST_GROUPS)?;
            Some(Ok(Request::Tabulate(Table::Sample { n: u32::from(n) })))
        }
        _ => None,
    }
}
