// The words of a line and of a rod frame, before any limit.
ghost use Rattle.std.specs.Prelude.{◌≡◌, map, option_map, string_bytes};
ghost use Rattle.requests.specs.RodViews.{direction_word, rod_frame_of};
ghost use Rattle.requests.specs.RodWords.{direction_first, point_first, rod_frame_first, two_vectors};
ghost use Rattle.requests.specs.Views.{fractions_of};

use crate::words::{VectorWord, split_ratio, split_three_indices, split_vector};

/// The indices u, v and w of a direction.
#[derive(Clone, Copy, Debug)]
pub struct DirectionWord {
    pub u: i64,
    pub v: i64,
    pub w: i64,
}

/// The vectors a and b of a rod frame.
#[derive(Clone, Copy, Debug)]
pub struct RodFrameWord {
    pub a: VectorWord,
    pub b: VectorWord,
}

/// The direction `u v w` that the first words are, and the words behind them.
pub fn split_direction(words: &[String]) -> Option<(DirectionWord, &[String])>
    ensures { option_map (λ r. (direction_word r.0, map string_bytes r.1.now)) result
        ≡ direction_first (map string_bytes words.now) }
{
    let (indices, others) = split_three_indices(words)?;
    let direction = DirectionWord {
        u: indices.h,
        v: indices.k,
        w: indices.l,
    };
    Some((direction, others))
}

/// The coordinates `x y z` of a point that the first words are, and the words behind them.
pub fn split_point(words: &[String]) -> Option<(VectorWord, &[String])>
    ensures { option_map (λ r. (fractions_of r.0, map string_bytes r.1.now)) result
        ≡ point_first (map string_bytes words.now) }
{
    let (x, others) = split_ratio(words)?;
    let (y, others) = split_ratio(others)?;
    let (z, others) = split_ratio(others)?;
    Some((VectorWord { x, y, z }, others))
}

/// The vectors that the first two words are, and the words behind them.
fn split_two_vectors(words: &[String]) -> Option<(RodFrameWord, &[String])>
    ensures { option_map (λ r. (rod_frame_of r.0, map string_bytes r.1.now)) result
        ≡ two_vectors (map string_bytes words.now) }
{
    let (a, others) = split_vector(words)?;
    let (b, others) = split_vector(others)?;
    Some((RodFrameWord { a, b }, others))
}

/// The rod frame that the first words give, `--frame a b`, or none, and the words behind it.
pub fn split_rod_frame(words: &[String]) -> Option<(Option<RodFrameWord>, &[String])>
    ensures { option_map (λ r. (option_map rod_frame_of r.0, map string_bytes r.1.now)) result
        ≡ rod_frame_first (map string_bytes words.now) }
{
    match words {
        [option, vectors @ ..] if option.as_str() == "--frame" => {
            let (frame, others) = split_two_vectors(vectors)?;
            Some((Some(frame), others))
        }
        _ => Some((None, words)),
    }
}
