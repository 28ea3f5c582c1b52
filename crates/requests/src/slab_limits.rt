// The limits of a slab.
ghost use Rattle.std.specs.Prelude.{◌≡◌, IfOk, IsTrue, false};
ghost use Rattle.fractions.specs.FractionOf.{fraction_of};
ghost use Rattle.slabs.specs.Slabs.{IsAtMost};
ghost use Rattle.requests.specs.Questions.{result_map};
ghost use Rattle.requests.specs.SlabLimits.{AreHeightsInRange, IsSlabInRange, are_heights_in_range, is_empty_slab, within_slab_limits};
ghost use Rattle.requests.specs.Views.{planes_of, slab_words};

use crate::limits::{PlaneWords, Planes, is_height_in_range, within_limits};
use crate::refusal::Refusal;
use crate::words::{FrameWord, IndexWords};
use fractions::Ratio;
use slabs::{is_empty, middle};

/// What words say of a slab: its indices, the vectors of a frame, where they have them, and its two heights.
#[derive(Clone, Copy)]
pub struct SlabWords {
    pub indices: IndexWords,
    pub frame: Option<FrameWord>,
    pub low: Ratio,
    pub high: Ratio,
}

/// Whether the heights of a slab and that of its middle are in range.
fn are_heights_in_range(low: Ratio, high: Ratio) -> bool
    ensures is { result ≡ are_heights_in_range (fraction_of low) (fraction_of high) }
    ensures range { IsTrue result → AreHeightsInRange (fraction_of low) (fraction_of high) }
{
    is_height_in_range(low) && is_height_in_range(high) && is_height_in_range(middle(low, high))
}

/// Whether the first height of a slab is above the second.
fn is_empty_slab(low: Ratio, high: Ratio) -> bool
    requires { AreHeightsInRange (fraction_of low) (fraction_of high) }
    ensures is { result ≡ is_empty_slab (fraction_of low) (fraction_of high) }
    ensures order { result ≡ false → IsAtMost (fraction_of low) (fraction_of high) }
{
    is_empty(low, high)
}

/// The orientation and the frame of a slab, if the words are within the limits, else the first limit that they pass.
pub fn within_slab_limits(words: SlabWords) -> Result<Planes, Refusal>
    ensures is { result_map planes_of result ≡ within_slab_limits (slab_words words) }
    ensures range { IfOk result
        (λ _. IsSlabInRange (fraction_of words.low) (fraction_of words.high)) }
{
    let planes = within_limits(PlaneWords {
        indices: words.indices,
        frame: words.frame,
        s: None,
    })?;
    if !are_heights_in_range(words.low, words.high) {
        return Err(Refusal::HeightLimit);
    }
    if is_empty_slab(words.low, words.high) {
        return Err(Refusal::EmptySlab);
    }
    Ok(planes)
}
