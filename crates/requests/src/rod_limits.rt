// The limits of a line and of its rod frame.
ghost use Rattle.std.specs.Prelude.{◌≡◌, IfOk, option_map};
ghost use Rattle.std.specs.Result.{result_err};
ghost use Rattle.symmetry.specs.Sizes.{IsVectorWithin};
ghost use Rattle.motions.specs.Views.{parts};
ghost use Rattle.plane_lattice.specs.Bounds.{largest_entry};
ghost use Rattle.penetration.specs.DirectionView.{direction_of};
ghost use Rattle.requests.specs.Limits.{plane_fault};
ghost use Rattle.requests.specs.Questions.{result_map};
ghost use Rattle.requests.specs.RodLimits.{edges_across, rod_vectors, within_line_limits};
ghost use Rattle.requests.specs.RodViews.{direction_word, line_of, line_words, rod_frame_of, rod_vectors_of};

use crate::limits::{edges, refusal_of, vector_in_parts};
use crate::refusal::Refusal;
use crate::rod_words::{DirectionWord, RodFrameWord};
use crate::words::VectorWord;
use fractions::Part;
use motions::{Basis, PlaneFault};
use penetration::{Direction, RodBasis};

/// The direction that the words give, or what is wrong with them.
fn direction_of_words(words: DirectionWord) -> Result<Direction, PlaneFault>
    ensures ok { IfOk result (λ direction. direction_of direction ≡ direction_word words) }
    ensures fault { result_err result ≡ plane_fault (direction_word words) }
{
    Direction::make(words.u, words.v, words.w)
}

/// The vectors of a rod frame in parts, if their entries are in range.
fn rod_frame_in_parts(frame: &RodFrameWord) -> Option<RodBasis>
    ensures { option_map rod_vectors_of result ≡ rod_vectors (Some (rod_frame_of frame.now)) }
{
    let a = vector_in_parts(&frame.a)?;
    let b = vector_in_parts(&frame.b)?;
    Some(RodBasis { a, b })
}

/// The cell edges a and b.
fn edges_across() -> RodBasis
    ensures { rod_vectors_of result ≡ edges_across }
{
    let Basis { a, b, .. } = edges();
    RodBasis { a, b }
}

/// The vectors that the words give, if their entries are in range, or the cell edges.
fn rod_basis_of_words(frame: Option<RodFrameWord>) -> Option<RodBasis>
    ensures { option_map rod_vectors_of result ≡ rod_vectors (option_map rod_frame_of frame) }
{
    match frame {
        None => Some(edges_across()),
        Some(frame) => rod_frame_in_parts(&frame),
    }
}

/// What words say of a line: its direction, a point of it, and the vectors of a rod frame, where they have them.
#[derive(Clone, Copy)]
pub struct LineWords {
    pub direction: DirectionWord,
    pub frame: Option<RodFrameWord>,
    pub point: VectorWord,
}

/// A line, its direction and a point of it, and the vectors of a rod frame.
#[derive(Clone, Copy)]
pub struct Line {
    pub direction: Direction,
    pub basis: RodBasis,
    pub point: [Part; 3],
}

/// The line and the rod frame, if the words are within the limits, else the first limit that they pass.
pub fn within_line_limits(words: LineWords) -> Result<Line, Refusal>
    ensures is { result_map line_of result ≡ within_line_limits (line_words words) }
    ensures point { IfOk result (λ line. IsVectorWithin largest_entry (parts line.point)) }
{
    let direction = match direction_of_words(words.direction) {
        Ok(direction) => direction,
        Err(fault) => return Err(refusal_of(fault)),
    };
    let Some(basis) = rod_basis_of_words(words.frame) else {
        return Err(Refusal::FrameLimit);
    };
    let Some(point) = vector_in_parts(&words.point) else {
        return Err(Refusal::PointLimit);
    };
    Ok(Line {
        direction,
        basis,
        point,
    })
}
