// Of the motions that are the same modulo the lattice, the near one that maps a line to itself.
ghost use Rattle.std.specs.Prelude.{◌≡◌, ◌+ℤ◌, ◌-ℤ◌, ◌≤ℤ◌, ◌^◌, pos, IfSome, MatchOption, unsigned_abs};
ghost use Rattle.std.specs.Option.{option_map};
ghost use Rattle.fractions.specs.declared.part.TheConstants.{UNIT};
ghost use Rattle.integers.specs.Size.{IsWithin};
ghost use Rattle.symmetry.specs.Groups.{IsGroup, IsMember, Listing, SameModulo};
ghost use Rattle.symmetry.specs.Lists.{IsChoice};
ghost use Rattle.symmetry.specs.Sizes.{IsSmall, IsVectorWithin};
ghost use Rattle.motions.specs.ListedSizes.{IsSmallWithin};
ghost use Rattle.motions.specs.BasisView.{basis_of};
ghost use Rattle.motions.specs.Views.{motion_of, parts, vector_of};
ghost use Rattle.closure.specs.declared.group.TheConstants.{MAX_ENTRY};
ghost use Rattle.plane_lattice.specs.Bounds.{largest_entry, largest_scaled, largest_turned};
ghost use Rattle.plane_lattice.specs.Coordinates.{volume};
ghost use Rattle.penetration.specs.DirectionView.{direction_of};
ghost use Rattle.penetration.specs.Lines.{InLineStabiliser};
ghost use Rattle.penetration.specs.RodFrames.{IsRodFrame};
ghost use Rattle.penetration.specs.RodFrameView.{basis_of_rod};
ghost use Rattle.penetration.specs.RodHomes.{AreStepsBack, HasWholeSteps, IsNear, IsNearSmall};
ghost use Rattle.penetration.specs.RodSections.{counted, drift};

use crate::frame::RodFrame;
use crate::signs::keeps_direction;
use fractions::{Part, whole_quotient};
use motions::Motion3;
use plane_lattice::{DualBasis, floor, image, without};

/// How far the motion moves the point: W p + w - p.
#[tactic(auto, unfolding(symmetry::specs::Vectors::plus, symmetry::specs::Vectors::multiple))]
pub(crate) fn drift(m: &Motion3, point: &[Part; 3]) -> [Part; 3]
    requires motion { IsSmall (motion_of m.now) }
    requires point { IsVectorWithin largest_entry (parts point.now) }
    ensures is { parts result ≡ drift (motion_of m.now) (parts point.now) }
    ensures small { IsVectorWithin (2 ^ 46) (parts result) }
{
    let turned = image(m, point);
    [
        drift_along(turned[0], m.t[0], point[0]),
        drift_along(turned[1], m.t[1], point[1]),
        drift_along(turned[2], m.t[2], point[2]),
    ]
}

/// An entry of it.
fn drift_along(turned: Part, translation: Part, point: Part) -> Part
    requires turned { IsWithin largest_turned turned.0 }
    requires translation { IsWithin (2 ^ 40) translation.0 }
    requires point { IsWithin largest_entry point.0 }
    ensures is { result.0 ≡ turned.0 +ℤ translation.0 -ℤ point.0 }
    ensures small { IsWithin (2 ^ 46) result.0 }
{
    Part(turned.0 + translation.0 - point.0)
}

/// The whole steps along a and b, and the whole axes, that lead back along the line. None comes exactly where the
/// coordinates along a and b are not whole.
fn steps_back(dual: &DualBasis, v: &[Part; 3]) -> Option<[i128; 3]>
    requires vector { IsVectorWithin (2 ^ 46) (parts v.now) }
    requires volume { pos 1 ≤ℤ volume (basis_of dual.now.basis) }
    ensures is { MatchOption result (¬ HasWholeSteps (basis_of dual.now.basis) (parts v.now))
        (λ c. AreStepsBack (basis_of dual.now.basis) (parts v.now) (vector_of c)) }
    ensures small { IfSome result (λ c. IsVectorWithin largest_scaled (vector_of c)) }
{
    let [x, y, z] = dual.scaled(v);
    let first = whole_quotient(x, dual.volume)?;
    let second = whole_quotient(y, dual.volume)?;
    Some([first, second, floor(z, dual.volume)])
}

/// The near motion that is the same as this one modulo the lattice and maps the line through the point to itself. None
/// comes exactly where there is none.
pub(crate) fn near_member(frame: &RodFrame, m: &Motion3, point: &[Part; 3]) -> Option<Motion3>
    requires motion { IsSmallWithin (unsigned_abs MAX_ENTRY) (motion_of m.now) }
    requires reduced { IsVectorWithin (unsigned_abs UNIT) (motion_of m.now).translation }
    requires point { IsVectorWithin largest_entry (parts point.now) }
    ensures choice { (g : Listing) → IsGroup g →
        IsRodFrame g (direction_of frame.now.direction) (basis_of_rod frame.now) →
        IsMember g (motion_of m.now) →
        IsChoice (SameModulo g) (IsNear (basis_of_rod frame.now) (parts point.now))
        (InLineStabiliser g (direction_of frame.now.direction) (counted (parts point.now)))
        (motion_of m.now) (option_map motion_of result) }
    ensures small { IfSome result (λ n. IsNearSmall (motion_of n)) }
{
    if !keeps_direction(m, &frame.direction) {
        return None;
    }
    let dual = frame.dual();
    let back = steps_back(&dual, &drift(m, point))?;
    Some(Motion3 {
        w: m.w,
        t: without(&m.t, &dual.basis, &back),
    })
}
