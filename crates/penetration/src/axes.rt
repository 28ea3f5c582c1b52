// The axis of a direction, and the rod frames.
ghost use Rattle.std.specs.Prelude.{◌≡◌, ◌↔◌, ◌*◌, ◌≤◌, ◌*ℤ◌, pos, IsTrue, unsigned_abs};
ghost use Rattle.fractions.specs.declared.part.TheConstants.{UNIT};
ghost use Rattle.integers.specs.Size.{IsWithin};
ghost use Rattle.motions.specs.declared.miller.TheConstants.{INDEX};
ghost use Rattle.symmetry.specs.Sizes.{IsVectorWithin};
ghost use Rattle.symmetry.specs.Vectors.{multiple};
ghost use Rattle.motions.specs.BasisView.{basis_of};
ghost use Rattle.motions.specs.Views.{parts};
ghost use Rattle.closure.specs.Groups.{group_listing};
ghost use Rattle.penetration.specs.Lines.{IsAxis};
ghost use Rattle.penetration.specs.DirectionView.{direction_of};
ghost use Rattle.penetration.specs.RodFrames.{IsRodFrame};

use crate::direction::Direction;
use closure::Group;
use fractions::{Part, UNIT};
use plane_lattice::{DualBasis, has_vectors, spans_lattice};

/// How many parts a cell edge has.
const EDGE: u32 = UNIT as u32;

/// A multiple of an entry of a direction, counted in parts.
fn multiple_of(times: u32, entry: i64) -> Part
    requires times { times ≤ unsigned_abs UNIT }
    requires entry { IsWithin (unsigned_abs INDEX) entry }
    ensures is { result.0 ≡ pos times *ℤ entry }
    ensures small { IsWithin (1000 * unsigned_abs UNIT) result.0 }
{
    Part(i64::from(times) * entry)
}

/// A multiple of a direction, counted in parts.
#[tactic(auto, unfolding(symmetry::specs::Vectors::multiple))]
fn multiple(direction: &Direction, times: u32) -> [Part; 3]
    requires { times ≤ unsigned_abs UNIT }
    ensures is { parts result ≡ multiple (pos times) (direction_of direction.now) }
    ensures small { IsVectorWithin (1000 * unsigned_abs UNIT) (parts result) }
{
    [
        multiple_of(times, direction.u),
        multiple_of(times, direction.v),
        multiple_of(times, direction.w),
    ]
}

/// The axis of a direction: its least positive multiple in the lattice, at most [`UNIT`](fractions::UNIT) times the
/// direction, since each whole cell edge is in the lattice.
pub fn axis(group: &Group, direction: &Direction) -> [Part; 3]
    ensures axis { IsAxis (group_listing group.now) (direction_of direction.now) (parts result) }
    ensures small { IsVectorWithin (1000 * unsigned_abs UNIT) (parts result) }
{
    let times = (1..EDGE).find(|times| group.has(multiple(direction, *times)));
    multiple(direction, times.unwrap_or(EDGE))
}

/// Whether a and b are a rod frame of the group and the direction, where the third vector is the axis.
pub fn is_rod_frame(group: &Group, direction: &Direction, dual: &DualBasis) -> bool
    requires { IsAxis (group_listing group.now) (direction_of direction.now)
        (basis_of dual.now.basis).tau }
    ensures { IsTrue result
        ↔ IsRodFrame (group_listing group.now) (direction_of direction.now)
        (basis_of dual.now.basis) }
{
    if !has_vectors(group, dual) {
        return false;
    }
    if dual.volume <= 0 {
        return false;
    }
    spans_lattice(group, dual)
}
