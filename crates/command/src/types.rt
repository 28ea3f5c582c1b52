// `types`: the table of a type, which needs no input.
ghost use Rattle.std.specs.Prelude.{◌≡◌, IfOk, IfSome, map, option_map, string_bytes};
ghost use Rattle.report.specs.TypeNumbers.{IsTypeNumber, type_count};
ghost use Rattle.requests.specs.Questions.{IsAskedInRange, result_map};
ghost use Rattle.command.specs.Numbers.{number_word};
ghost use Rattle.command.specs.Types.{kind_word, types_words};
ghost use Rattle.requests.specs.Views.{asked_of};

use crate::numbers::read_number;
use report::Kind;
use requests::{Refusal, Request, Table};

/// The kind of types that a word names.
fn read_kind(word: &str) -> Option<Kind>
    ensures { result ≡ kind_word word.now }
{
    match word {
        "layer" => Some(Kind::Layer),
        "rod" => Some(Kind::Rod),
        "frieze" => Some(Kind::Frieze),
        _ => None,
    }
}

/// How many types there are of a kind.
fn type_count(kind: Kind) -> u8
    ensures { result ≡ type_count kind }
{
    match kind {
        Kind::Layer => 80,
        Kind::Rod => 75,
        Kind::Frieze => 7,
    }
}

/// The number of a type of this kind that a word is: one to three digits.
fn read_type_number(kind: Kind, word: &str) -> Option<u8>
    ensures is { result ≡ number_word (type_count kind) word.now }
    ensures of_kind { IfSome result (IsTypeNumber kind) }
{
    let n = read_number(word, u16::from(type_count(kind)))?;
    Some(n as u8)
}

/// What the words behind `types` ask for: a kind, and a number of a type of that kind.
pub fn read_types(arguments: &[String]) -> Option<Result<Request, Refusal>>
    ensures is { option_map (λ read. result_map asked_of read) result
        ≡ types_words (map string_bytes arguments.now) }
    ensures range { IfSome result
        (λ read. IfOk read (λ request. IsAskedInRange (asked_of request))) }
{
    match arguments {
        [kind, number] => {
            let kind = read_kind(kind.as_str())?;
            let n = read_type_number(kind, number.as_str())?;
            Some(Ok(Request::Tabulate(Table::Type { kind, n })))
        }
        _ => None,
    }
}
