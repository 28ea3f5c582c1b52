// `survey`: one orientation of each class of equivalent ones.
ghost use Rattle.std.specs.Prelude.{◌≡◌, IfOk, IfSome, map, option_map, string_bytes};
ghost use Rattle.requests.specs.Questions.{IsAskedInRange, IsSurveyInRange, result_map};
ghost use Rattle.requests.specs.Views.{asked_of};
ghost use Rattle.requests.specs.Words.{first_word};
ghost use Rattle.command.specs.Surveys.{size_word, survey_words};

use requests::{Question, Refusal, Request, split_format};

/// The size that a word is: a digit from 1 to 5.
fn read_size(word: &str) -> Option<i64>
    ensures is { result ≡ size_word word.now }
    ensures range { IfSome result IsSurveyInRange }
{
    match word {
        "1" => Some(1),
        "2" => Some(2),
        "3" => Some(3),
        "4" => Some(4),
        "5" => Some(5),
        _ => None,
    }
}

/// The first word as a size, and the words behind it.
fn split_size(words: &[String]) -> Option<(i64, &[String])>
    ensures is { option_map (λ r. (r.0, map string_bytes r.1.now)) result
        ≡ first_word size_word (map string_bytes words.now) }
    ensures range { IfSome result (λ r. IsSurveyInRange r.0) }
{
    match words {
        [word, others @ ..] => {
            let n = read_size(word.as_str())?;
            Some((n, others))
        }
        [] => None,
    }
}

/// What the words behind `survey` ask for: the most that an index may be, 1 to 5, and last `--cif`.
pub fn read_survey(arguments: &[String]) -> Option<Result<Request, Refusal>>
    ensures is { option_map (λ read. result_map asked_of read) result
        ≡ survey_words (map string_bytes arguments.now) }
    ensures range { IfSome result
        (λ read. IfOk read (λ request. IsAskedInRange (asked_of request))) }
{
    let (n, others) = split_size(arguments)?;
    let (format, others) = split_format(others);
    match others {
        [] => {
            let question = Question::Survey { n };
            Some(Ok(Request::About { format, question }))
        }
        _ => None,
    }
}
