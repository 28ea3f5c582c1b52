// The numbers of the orbits of heights.
ghost use Rattle.std.specs.Prelude.{◌≡◌, ◌↔◌, ◌<◌, ◌≤◌, ◌^◌, ◌≤ℤ◌, ◌*ℤ◌, ℕ, ℤ, pos, IfOk, IsTrue, MatchOption, length, map, slice_index};
ghost use Rattle.integers.specs.Size.{IsWithin};
ghost use Rattle.motions.specs.Signs.{sign_value};
ghost use Rattle.scanning.specs.Bounds.{largest_level};
ghost use Rattle.orbits.specs.HeightMotionView.{height_motion_of};
ghost use Rattle.orbits.specs.JoinedLevels.{AreJoined, TakesLevel};
ghost use Rattle.orbits.specs.LevelView.{AreJoinedAt, level_at};
ghost use Rattle.orbits.specs.Numbers.{AreClasses, AreNumbered};

use crate::height_motion::HeightMotion;
use motions::Sign;
use plane_lattice::Frame;
use scanning::Height;
use std::alloc::{AllocError, Global};

/// The numbers of the orbits of the heights, from 1 in the order of first appearance.
pub(crate) fn orbit_numbers(
    alloc: Global,
    heights: &[Height],
    motions: &[HeightMotion],
    frame: &Frame,
) -> Result<Vec<u32>, AllocError>
    requires few { length heights.now < 2 ^ 32 }
    requires classes { AreClasses (AreJoinedAt motions.now frame.now.period.0 heights.now)
        (length heights.now) }
    ensures { IfOk result (λ numbers. (classes : ℕ)
        × AreNumbered (AreJoinedAt motions.now frame.now.period.0 heights.now)
        (length heights.now) numbers.items classes) }
{
    let mut numbers = Vec::new(alloc);
    let mut orbits = 0;
    for height in heights {
        let number = match earlier_number(&numbers, heights, height, motions, frame) {
            Some(number) => number,
            None => {
                orbits += 1;
                orbits
            }
        };
        numbers.push(number)?;
    }
    Ok(numbers)
}

/// The number of the first of the numbered heights that is in one orbit with the height. None comes exactly where there
/// is none.
fn earlier_number(
    numbers: &[u32],
    heights: &[Height],
    height: &Height,
    motions: &[HeightMotion],
    frame: &Frame,
) -> Option<u32>
    requires { length numbers.now ≤ length heights.now }
    ensures { MatchOption result
        ((i : ℕ) → i < length numbers.now →
        ¬ AreJoined (map height_motion_of motions.now) frame.now.period.0
        (level_at heights.now i) height.now.level)
        (λ number. (i : ℕ) × (i < length numbers.now) × (slice_index numbers.now i ≡ number)
        × AreJoined (map height_motion_of motions.now) frame.now.period.0
        (level_at heights.now i) height.now.level) }
{
    for (i, number) in numbers.iter().enumerate() {
        if are_joined(&heights[i], height, motions, frame) {
            return Some(*number);
        }
    }
    None
}

/// Whether one of the motions takes the one height to the other, but for a whole number of periods.
fn are_joined(height: &Height, image: &Height, motions: &[HeightMotion], frame: &Frame) -> bool
    ensures { IsTrue result
        ↔ AreJoined (map height_motion_of motions.now) frame.now.period.0 height.now.level
        image.now.level }
{
    motions
        .iter()
        .any(|motion| takes(motion, height, image, frame))
}

/// Whether the motion takes the one height to the other, but for a whole number of periods.
fn takes(motion: &HeightMotion, height: &Height, image: &Height, frame: &Frame) -> bool
    ensures { IsTrue result
        ↔ TakesLevel frame.now.period.0 height.now.level image.now.level
        (height_motion_of motion.now) }
{
    let turned = signed(motion.sign, height);
    is_multiple(turned + 2 * motion.shift - image.level, 2 * frame.period.0)
}

/// The level of the height with the sign.
fn signed(sign: Sign, height: &Height) -> i64
    ensures is { result ≡ sign_value sign *ℤ height.now.level }
    ensures small { IsWithin largest_level result }
{
    match sign {
        Sign::Plus => height.level,
        Sign::Minus => -height.level,
    }
}

/// Whether d divides x.
fn is_multiple(x: i64, d: i64) -> bool
    requires { pos 1 ≤ℤ d }
    ensures { IsTrue result ↔ ((k : ℤ) × (x ≡ d *ℤ k)) }
{
    x % d == 0
}
