// The words that a command is made of, before any limit.
ghost use Rattle.std.specs.Prelude.{◌≡◌, ◌≢◌, ◌≤◌, ◌↔◌, IfSome, IsTrue, length, map, option_map, pos, slice_index, string_bytes};
ghost use Rattle.std.specs.Str.Parse.{without_leading_sign};
ghost use Rattle.fractions.specs.FractionOf.{fraction_of};
ghost use Rattle.requests.specs.Views.{fractions_of, frame_of, indices_of, placed};
ghost use Rattle.requests.specs.Words.{first_word, form_first, format_first, frame_first, index_of, indices_first, ratio_at, ratio_before_comma, ratio_to_end, three_indices, three_vectors, two_indices, vector_word};

use crate::request::{Form, Format};
use fractions::{Ratio, read_ratio};
use triplets::Notation;

/// The most digits that an index has.
const MOST_INDEX_DIGITS: usize = 9;

/// Whether a word has no plus sign first, and at most nine bytes behind a hyphen.
fn is_short(word: &[u8]) -> bool
    ensures { IsTrue result
        ↔ ((slice_index word.now 0 ≢ 43) × (length (without_leading_sign word.now) ≤ 9)) }
{
    match word {
        [b'+', ..] => false,
        [b'-', digits @ ..] => digits.len() <= MOST_INDEX_DIGITS,
        _ => word.len() <= MOST_INDEX_DIGITS,
    }
}

/// The index that a word is: an optional hyphen, and one to nine digits.
fn read_index(word: &str) -> Option<i64>
    ensures { result ≡ index_of word.now }
{
    if is_short(word.as_bytes()) {
        word.parse().ok()
    } else {
        None
    }
}

/// The ratio that stands at an index, and the index behind it.
fn read_placed(word: &[u8], at: usize) -> Option<(Ratio, usize)>
    requires { at ≤ length word.now }
    ensures value { option_map placed result ≡ ratio_at word.now at }
    ensures within { IfSome result (λ read. read.1 ≤ length word.now) }
{
    read_ratio(word, at).ok()
}

/// The ratio that stands at an index with a comma behind it, and the index behind the comma.
fn read_before_comma(word: &[u8], at: usize) -> Option<(Ratio, usize)>
    requires { at ≤ length word.now }
    ensures value { option_map placed result ≡ ratio_before_comma word.now at }
    ensures within { IfSome result (λ read. read.1 ≤ length word.now) }
{
    let (ratio, end) = read_placed(word, at)?;
    if word.get(end) == Some(&b',') {
        Some((ratio, end + 1))
    } else {
        None
    }
}

/// The ratio that stands from an index to the end of a word.
fn read_to_end(word: &[u8], at: usize) -> Option<Ratio>
    requires { at ≤ length word.now }
    ensures { option_map fraction_of result ≡ ratio_to_end word.now at }
{
    let (ratio, end) = read_placed(word, at)?;
    if end == word.len() { Some(ratio) } else { None }
}

/// Three ratios, as the entries of a vector.
#[derive(Clone, Copy, Debug)]
pub struct VectorWord {
    pub x: Ratio,
    pub y: Ratio,
    pub z: Ratio,
}

/// The vector that a word is: three ratios joined by commas.
fn read_vector(word: &[u8]) -> Option<VectorWord>
    ensures { option_map fractions_of result ≡ vector_word word.now }
{
    let (x, second) = read_before_comma(word, 0)?;
    let (y, third) = read_before_comma(word, second)?;
    let z = read_to_end(word, third)?;
    Some(VectorWord { x, y, z })
}

/// The vectors a, b and tau of a frame.
#[derive(Clone, Copy, Debug)]
pub struct FrameWord {
    pub a: VectorWord,
    pub b: VectorWord,
    pub tau: VectorWord,
}

/// Indices h, k and l, and i where four were given.
#[derive(Clone, Copy, Debug)]
pub struct IndexWords {
    pub h: i64,
    pub k: i64,
    pub l: i64,
    pub i: Option<i64>,
}

/// The first word as an index, and the words behind it.
fn split_index(words: &[String]) -> Option<(i64, &[String])>
    ensures { option_map (λ r. (r.0, map string_bytes r.1.now)) result
        ≡ first_word index_of (map string_bytes words.now) }
{
    match words {
        [word, others @ ..] => {
            let index = read_index(word.as_str())?;
            Some((index, others))
        }
        [] => None,
    }
}

/// The first word as a ratio, and the words behind it.
pub fn split_ratio(words: &[String]) -> Option<(Ratio, &[String])>
    ensures { option_map (λ r. (fraction_of r.0, map string_bytes r.1.now)) result
        ≡ first_word (λ word. ratio_to_end word 0) (map string_bytes words.now) }
{
    match words {
        [word, others @ ..] => {
            let ratio = read_to_end(word.as_bytes(), 0)?;
            Some((ratio, others))
        }
        [] => None,
    }
}

/// The first word as a vector, and the words behind it.
pub fn split_vector(words: &[String]) -> Option<(VectorWord, &[String])>
    ensures { option_map (λ r. (fractions_of r.0, map string_bytes r.1.now)) result
        ≡ first_word vector_word (map string_bytes words.now) }
{
    match words {
        [word, others @ ..] => {
            let vector = read_vector(word.as_bytes())?;
            Some((vector, others))
        }
        [] => None,
    }
}

/// The indices `h k l` that the first words are, and the words behind them.
pub fn split_three_indices(words: &[String]) -> Option<(IndexWords, &[String])>
    ensures { option_map (λ r. (indices_of r.0, map string_bytes r.1.now)) result
        ≡ three_indices (map string_bytes words.now) }
{
    let (h, others) = split_index(words)?;
    let (k, others) = split_index(others)?;
    let (l, others) = split_index(others)?;
    Some((IndexWords { h, k, l, i: None }, others))
}

/// The indices `h k` of a line that the first words are, as those of the plane (h k 0), and the words behind them.
pub fn split_two_indices(words: &[String]) -> Option<(IndexWords, &[String])>
    ensures is { option_map (λ r. (indices_of r.0, map string_bytes r.1.now)) result
        ≡ two_indices (map string_bytes words.now) }
    ensures line { IfSome result (λ r. r.0.l ≡ pos 0) }
{
    let (h, others) = split_index(words)?;
    let (k, others) = split_index(others)?;
    let indices = IndexWords {
        h,
        k,
        l: 0,
        i: None,
    };
    Some((indices, others))
}

/// The indices `h k l` or `h k i l` that the first words are, and the words behind them.
pub fn split_indices(words: &[String]) -> Option<(IndexWords, &[String])>
    ensures { option_map (λ r. (indices_of r.0, map string_bytes r.1.now)) result
        ≡ indices_first (map string_bytes words.now) }
{
    let (three, others) = split_three_indices(words)?;
    match split_index(others) {
        None => Some((three, others)),
        Some((l, others)) => {
            let four = IndexWords {
                h: three.h,
                k: three.k,
                l,
                i: Some(three.l),
            };
            Some((four, others))
        }
    }
}

/// The vectors that the first three words are, and the words behind them.
fn split_three_vectors(words: &[String]) -> Option<(FrameWord, &[String])>
    ensures { option_map (λ r. (frame_of r.0, map string_bytes r.1.now)) result
        ≡ three_vectors (map string_bytes words.now) }
{
    let (a, others) = split_vector(words)?;
    let (b, others) = split_vector(others)?;
    let (tau, others) = split_vector(others)?;
    Some((FrameWord { a, b, tau }, others))
}

/// The frame that the first words give, `--frame a b t`, or none, and the words behind it.
pub fn split_frame(words: &[String]) -> Option<(Option<FrameWord>, &[String])>
    ensures { option_map (λ r. (option_map frame_of r.0, map string_bytes r.1.now)) result
        ≡ frame_first (map string_bytes words.now) }
{
    match words {
        [option, vectors @ ..] if option.as_str() == "--frame" => {
            let (frame, others) = split_three_vectors(vectors)?;
            Some((Some(frame), others))
        }
        _ => Some((None, words)),
    }
}

/// The form that the first word gives, `--json`, or text, and the words behind it.
pub fn split_form(words: &[String]) -> (Form, &[String])
    ensures { (result.0, map string_bytes result.1.now) ≡ form_first (map string_bytes words.now) }
{
    match words {
        [option, others @ ..] if option.as_str() == "--json" => (Form::Json, others),
        _ => (Form::Text, words),
    }
}

/// The format that the first word gives, `--cif`, or a group text, and the words behind it.
pub fn split_format(words: &[String]) -> (Format, &[String])
    ensures { (result.0, map string_bytes result.1.now)
        ≡ format_first (map string_bytes words.now) }
{
    match words {
        [option, others @ ..] if option.as_str() == "--cif" => (Format::Cif, others),
        _ => (Format::GroupText(Notation::Triplets), words),
    }
}
