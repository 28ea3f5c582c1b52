// The sign of a motion that keeps a direction.
ghost use Rattle.std.specs.Prelude.{◌≡◌, ◌↔◌, ◌*ℤ◌, negsuc, IsTrue, MatchOption};
ghost use Rattle.integers.specs.Size.{IsWithin};
ghost use Rattle.symmetry.specs.Sizes.{IsSmall, IsVectorWithin};
ghost use Rattle.symmetry.specs.Vectors.{image, multiple, opposite};
ghost use Rattle.motions.specs.Signs.{sign_value};
ghost use Rattle.motions.specs.Views.{motion_of, parts};
ghost use Rattle.plane_lattice.specs.Bounds.{largest_entry};
ghost use Rattle.penetration.specs.DirectionView.{direction_of};
ghost use Rattle.penetration.specs.RodFrames.{KeepsDirection};

use crate::direction::Direction;
use fractions::Part;
use motions::{Motion3, Sign};
use plane_lattice::image;

/// The direction as a vector of parts.
fn vector(direction: &Direction) -> [Part; 3]
    ensures is { parts result ≡ direction_of direction.now }
    ensures small { IsVectorWithin largest_entry (parts result) }
{
    [Part(direction.u), Part(direction.v), Part(direction.w)]
}

/// A number of parts with its sign changed.
fn negative(part: Part) -> Part
    requires { IsWithin largest_entry part.0 }
    ensures { result.0 ≡ negsuc 0 *ℤ part.0 }
{
    Part(-part.0)
}

/// The vector with each sign changed.
#[tactic(auto, unfolding(symmetry::specs::Vectors::multiple))]
fn opposite(v: &[Part; 3]) -> [Part; 3]
    requires { IsVectorWithin largest_entry (parts v.now) }
    ensures { parts result ≡ opposite (parts v.now) }
{
    [negative(v[0]), negative(v[1]), negative(v[2])]
}

/// Whether two vectors are equal.
fn is_same(v: &[Part; 3], w: &[Part; 3]) -> bool
    ensures { IsTrue result ↔ (parts v.now ≡ parts w.now) }
{
    v[0] == w[0] && v[1] == w[1] && v[2] == w[2]
}

/// The sign e with W (u,v,w) = e (u,v,w). None comes exactly where there is none.
pub(crate) fn sign_along(m: &Motion3, direction: &Direction) -> Option<Sign>
    requires { IsSmall (motion_of m.now) }
    ensures { MatchOption result (¬ KeepsDirection (direction_of direction.now) (motion_of m.now))
        (λ e. image (motion_of m.now).matrix (direction_of direction.now)
        ≡ multiple (sign_value e) (direction_of direction.now)) }
{
    let along = vector(direction);
    let turned = image(m, &along);
    if is_same(&turned, &along) {
        return Some(Sign::Plus);
    }
    if is_same(&turned, &opposite(&along)) {
        return Some(Sign::Minus);
    }
    None
}

/// Whether a motion takes the direction to itself or to its opposite.
pub(crate) fn keeps_direction(m: &Motion3, direction: &Direction) -> bool
    requires { IsSmall (motion_of m.now) }
    ensures { IsTrue result ↔ KeepsDirection (direction_of direction.now) (motion_of m.now) }
{
    match sign_along(m, direction) {
        Some(_) => true,
        None => false,
    }
}
