// What operations do to the planes of an orientation.
ghost use Rattle.std.specs.Prelude.{◌≡◌, ◌≤◌, ◌↔◌, Any, IfOk, IsTrue, map, vec_len};
ghost use Rattle.symmetry.specs.Groups.{IsGroup};
ghost use Rattle.symmetry.specs.HeightMotions.{AreHeightMotions};
ghost use Rattle.symmetry.specs.Sizes.{IsSmall};
ghost use Rattle.motions.specs.Views.{motion_of, row_of};
ghost use Rattle.closure.specs.Groups.{group_listing};
ghost use Rattle.closure.specs.declared.group.TheConstants.{MAX_OPERATIONS};
ghost use Rattle.orbits.specs.HeightMotionView.{height_motion_of, IsChosen};

use crate::height_motion::HeightMotion;
use closure::Group;
use motions::{Motion3, shift, side};
use plane_lattice::Frame;
use std::alloc::{AllocError, Global};

/// What the operations of the group do to the planes, modulo the period, each motion once.
pub(crate) fn height_motions(
    alloc: Global,
    group: &Group,
    frame: &Frame,
) -> Result<Vec<HeightMotion>, AllocError>
    ensures motions { IfOk result (λ motions.
        AreHeightMotions (group_listing group.now) (row_of frame.now.plane) frame.now.period.0
        (map height_motion_of motions.items)) }
    ensures group { IfOk result (λ _. IsGroup (group_listing group.now)) }
    ensures few { IfOk result (λ motions. vec_len motions ≤ MAX_OPERATIONS) }
{
    let mut motions = Vec::new(alloc);
    for m in group.ops() {
        if let Some(motion) = height_motion(m, frame) {
            if !lists_motion(&motions, &motion) {
                motions.push(motion)?;
            }
        }
    }
    Ok(motions)
}

/// What the operation does to the planes, modulo the period. None comes exactly where it does not keep the orientation.
fn height_motion(m: &Motion3, frame: &Frame) -> Option<HeightMotion>
    requires { IsSmall (motion_of m.now) }
    ensures { IsChosen (row_of frame.now.plane) frame.now.period.0 (motion_of m.now) result }
{
    let sign = side(m, &frame.plane)?;
    let shift = shift(m, &frame.plane).rem_euclid(frame.period.0);
    Some(HeightMotion { sign, shift })
}

/// Whether the motion is one of the list.
fn lists_motion(motions: &[HeightMotion], motion: &HeightMotion) -> bool
    ensures { IsTrue result
        ↔ Any (λ h. height_motion_of motion.now ≡ h) (map height_motion_of motions.now) }
{
    motions.iter().any(|other| is_same(motion, other))
}

/// Whether two motions are equal.
fn is_same(motion: &HeightMotion, other: &HeightMotion) -> bool
    ensures { IsTrue result ↔ (height_motion_of motion.now ≡ height_motion_of other.now) }
{
    motion.sign == other.sign && motion.shift == other.shift
}
