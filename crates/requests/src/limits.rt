// The limits of a request.
ghost use Rattle.std.specs.Prelude.{◌≡◌, ◌*◌, ◌<◌, IfOk, IfSome, IsTrue, Some, option_map, unsigned_abs};
ghost use Rattle.std.specs.Result.{result_err};
ghost use Rattle.fractions.specs.declared.part.Part.{Part};
ghost use Rattle.integers.specs.Size.{IsWithin};
ghost use Rattle.fractions.specs.declared.part.TheConstants.{UNIT};
ghost use Rattle.fractions.specs.FractionOf.{fraction_of};
ghost use Rattle.symmetry.specs.Sizes.{IsVectorWithin};
ghost use Rattle.motions.specs.Views.{parts, row_of};
ghost use Rattle.motions.specs.BasisView.{basis_of};
ghost use Rattle.requests.specs.Limits.{basis_parts, edges_basis, entry_parts, IsHeightLimit, is_height_in_range, is_height_limit, is_third, plane_fault, plane_refusal, size_parts, vector_parts, within_limits};
ghost use Rattle.requests.specs.Questions.{result_map};
ghost use Rattle.requests.specs.Views.{fractions_of, frame_of, indices_of, plane_words, planes_of};

use crate::refusal::Refusal;
use crate::words::{FrameWord, IndexWords, VectorWord};
use fractions::{Part, Ratio, UNIT};
use motions::{Basis, MOST_ENTRY, Miller, PlaneFault};
use scanning::MOST_HEIGHT;

/// The orientation that the indices give, or what is wrong with them.
fn plane_of_words(words: IndexWords) -> Result<Miller, PlaneFault>
    ensures ok { IfOk result (λ plane. row_of plane ≡ (indices_of words).row) }
    ensures fault { result_err result ≡ plane_fault (indices_of words).row }
{
    Miller::make(words.h, words.k, words.l)
}

/// How many parts a size over a denominator is, if the denominator divides [`UNIT`] and the size is in range.
fn size_in_parts(size: u128, den: u128) -> Option<i64>
    requires { 0 < den }
    ensures value { result ≡ size_parts size den }
    ensures small { IfSome result (IsWithin (1000 * unsigned_abs UNIT)) }
{
    let unit = u128::from(UNIT.unsigned_abs());
    if den > unit || unit % den != 0 || size > MOST_ENTRY * den {
        return None;
    }
    Some((size * (unit / den)) as i64)
}

/// An entry of a frame vector in parts, if it is in range.
fn entry_in_parts(entry: Ratio) -> Option<Part>
    ensures value { option_map (λ (part : Part). part.0) result ≡ entry_parts (fraction_of entry) }
    ensures small { IfSome result (λ part. IsWithin (1000 * unsigned_abs UNIT) part.0) }
{
    let size = size_in_parts(entry.num().unsigned_abs(), entry.den().unsigned_abs())?;
    Some(Part(if entry.num() < 0 { -size } else { size }))
}

/// A frame vector in parts, if its entries are in range.
pub fn vector_in_parts(v: &VectorWord) -> Option<[Part; 3]>
    ensures value { option_map parts result ≡ vector_parts (fractions_of v.now) }
    ensures small { IfSome result
        (λ vector. IsVectorWithin (1000 * unsigned_abs UNIT) (parts vector)) }
{
    let x = entry_in_parts(v.x)?;
    let y = entry_in_parts(v.y)?;
    let z = entry_in_parts(v.z)?;
    Some([x, y, z])
}

/// The vectors of a frame in parts, if their entries are in range.
fn frame_in_parts(frame: &FrameWord) -> Option<Basis>
    ensures { option_map basis_of result ≡ basis_parts (Some (frame_of frame.now)) }
{
    let a = vector_in_parts(&frame.a)?;
    let b = vector_in_parts(&frame.b)?;
    let tau = vector_in_parts(&frame.tau)?;
    Some(Basis { a, b, tau })
}

/// The three cell edges.
pub fn edges() -> Basis
    ensures { basis_of result ≡ edges_basis }
{
    let edge = Part(UNIT);
    let none = Part(0);
    Basis {
        a: [edge, none, none],
        b: [none, edge, none],
        tau: [none, none, edge],
    }
}

/// The vectors that the words give, if their entries are in range, or the cell edges.
fn basis_of_words(frame: Option<FrameWord>) -> Option<Basis>
    ensures { option_map basis_of result ≡ basis_parts (option_map frame_of frame) }
{
    match frame {
        None => Some(edges()),
        Some(frame) => frame_in_parts(&frame),
    }
}

/// Whether numerator and denominator of a height are in range.
pub fn is_height_in_range(s: Ratio) -> bool
    ensures is { result ≡ is_height_in_range (fraction_of s) }
    ensures range { IsTrue result → IsHeightLimit (Some (fraction_of s)) }
{
    s.num().unsigned_abs() <= MOST_HEIGHT && s.den().unsigned_abs() <= MOST_HEIGHT
}

/// Whether a height, where one is given, is in range.
fn is_height_within(s: Option<Ratio>) -> bool
    ensures is { result ≡ is_height_limit (option_map fraction_of s) }
    ensures range { IsTrue result → IsHeightLimit (option_map fraction_of s) }
{
    match s {
        None => true,
        Some(s) => is_height_in_range(s),
    }
}

/// Whether i is -(h+k), where it is given.
fn is_third(words: IndexWords) -> bool
    ensures { result ≡ is_third (indices_of words).row (indices_of words).third }
{
    match words.i {
        None => true,
        Some(i) => i128::from(words.h) + i128::from(words.k) + i128::from(i) == 0,
    }
}

/// What words say of a plane: its indices, the vectors of a frame and a height, where they have them.
#[derive(Clone, Copy)]
pub struct PlaneWords {
    pub indices: IndexWords,
    pub frame: Option<FrameWord>,
    pub s: Option<Ratio>,
}

/// An orientation and the vectors of a frame.
#[derive(Clone, Copy)]
pub struct Planes {
    pub plane: Miller,
    pub basis: Basis,
}

/// The refusal of indices that are no Miller indices.
pub fn refusal_of(fault: PlaneFault) -> Refusal
    ensures { result ≡ plane_refusal fault }
{
    match fault {
        PlaneFault::OutOfRange => Refusal::OutOfRange,
        PlaneFault::AllZero => Refusal::AllZero,
        PlaneFault::NotCoprime(divisor) => Refusal::NotCoprime(divisor),
    }
}

/// The orientation and the frame, if the words are within the limits, else the first limit that they pass.
pub fn within_limits(words: PlaneWords) -> Result<Planes, Refusal>
    ensures is { result_map planes_of result ≡ within_limits (plane_words words) }
    ensures height { IfOk result (λ _. IsHeightLimit (plane_words words).height) }
    ensures row { IfOk result (λ planes. row_of planes.plane ≡ (indices_of words.indices).row) }
{
    if !is_third(words.indices) {
        return Err(Refusal::FourIndex);
    }
    let plane = match plane_of_words(words.indices) {
        Ok(plane) => plane,
        Err(fault) => return Err(refusal_of(fault)),
    };
    let Some(basis) = basis_of_words(words.frame) else {
        return Err(Refusal::FrameLimit);
    };
    if !is_height_within(words.s) {
        return Err(Refusal::HeightLimit);
    }
    Ok(Planes { plane, basis })
}
