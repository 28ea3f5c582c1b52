// Whether rod operations have large matrix entries in a rod frame.
ghost use Rattle.std.specs.Prelude.{◌↔◌, ◌≤ℤ◌, pos, All, Contains, IsTrue, map};
ghost use Rattle.symmetry.specs.Motions.{Motion};
ghost use Rattle.symmetry.specs.Sizes.{IsSmall};
ghost use Rattle.motions.specs.BasisView.{basis_of};
ghost use Rattle.motions.specs.Views.{motion_of};
ghost use Rattle.closure.specs.Groups.{group_listing};
ghost use Rattle.plane_lattice.specs.Coordinates.{volume};
ghost use Rattle.penetration.specs.DirectionView.{direction_of};
ghost use Rattle.penetration.specs.RodFrames.{IsRodSkewed, SkewsRod};

use crate::direction::Direction;
use crate::signs::keeps_direction;
use closure::Group;
use motions::Motion3;
use plane_lattice::{DualBasis, turns_far};

/// Whether the motion keeps the direction and has a matrix entry above 500 in size, written in the basis.
fn skews(m: &Motion3, direction: &Direction, dual: &DualBasis) -> bool
    requires motion { IsSmall (motion_of m.now) }
    requires volume { pos 1 ≤ℤ volume (basis_of dual.now.basis) }
    ensures { IsTrue result
        ↔ SkewsRod (direction_of direction.now) (basis_of dual.now.basis) (motion_of m.now) }
{
    if !keeps_direction(m, direction) {
        return false;
    }
    turns_far(m, dual)
}

/// Whether some motion does.
fn is_skewed(ops: &[Motion3], direction: &Direction, dual: &DualBasis) -> bool
    requires operations { All IsSmall (map motion_of ops.now) }
    requires volume { pos 1 ≤ℤ volume (basis_of dual.now.basis) }
    ensures { IsTrue result
        ↔ ((m : Motion) × Contains (map motion_of ops.now) m
        × SkewsRod (direction_of direction.now) (basis_of dual.now.basis) m) }
{
    for m in ops {
        if skews(m, direction, dual) {
            return true;
        }
    }
    false
}

/// Whether a rod frame of the group is skewed.
pub fn is_rod_skewed(group: &Group, direction: &Direction, dual: &DualBasis) -> bool
    requires { pos 1 ≤ℤ volume (basis_of dual.now.basis) }
    ensures { IsTrue result
        ↔ IsRodSkewed (group_listing group.now) (direction_of direction.now)
        (basis_of dual.now.basis) }
{
    is_skewed(group.ops(), direction, dual)
}
