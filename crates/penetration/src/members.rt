// The members of a group that map a line to itself and are near.
ghost use Rattle.std.specs.Prelude.{All, IfOk, IfSome, map, unsigned_abs};
ghost use Rattle.std.specs.Option.{option_map};
ghost use Rattle.symmetry.specs.Groups.{IsMember, SameModulo};
ghost use Rattle.symmetry.specs.Lists.{AreChosen, IsChoice, IsListOf};
ghost use Rattle.symmetry.specs.Sizes.{IsVectorWithin};
ghost use Rattle.motions.specs.ListedSizes.{IsSmallWithin};
ghost use Rattle.motions.specs.Views.{motion_of, parts};
ghost use Rattle.closure.specs.declared.group.TheConstants.{MAX_ENTRY};
ghost use Rattle.closure.specs.Groups.{group_listing};
ghost use Rattle.plane_lattice.specs.Bounds.{largest_entry};
ghost use Rattle.penetration.specs.DirectionView.{direction_of};
ghost use Rattle.penetration.specs.Lines.{InLineStabiliser};
ghost use Rattle.penetration.specs.RodFrameView.{basis_of_rod, IsRodMadeFor};
ghost use Rattle.penetration.specs.RodHomes.{IsNear, IsNearSmall};
ghost use Rattle.penetration.specs.RodSections.{counted};

use crate::frame::RodFrame;
use crate::near::near_member;
use closure::Group;
use fractions::Part;
use motions::Motion3;
use quotient::Quotient;
use std::alloc::{AllocError, Global};

/// The answer where memory runs out.
pub type NoMemory = AllocError;

/// The near member that is the same as this operation modulo the lattice and maps the line through the point to itself.
/// None comes exactly where there is none.
fn member(group: &Group, frame: &RodFrame, m: &Motion3, point: &[Part; 3]) -> Option<Motion3>
    requires made { IsRodMadeFor group.now frame.now }
    requires motion { IsSmallWithin (unsigned_abs MAX_ENTRY) (motion_of m.now) }
    requires member { IsMember (group_listing group.now) (motion_of m.now) }
    requires point { IsVectorWithin largest_entry (parts point.now) }
    ensures choice { IsChoice (SameModulo (group_listing group.now))
        (IsNear (basis_of_rod frame.now) (parts point.now))
        (InLineStabiliser (group_listing group.now) (direction_of frame.now.direction)
        (counted (parts point.now)))
        (motion_of m.now) (option_map motion_of result) }
    ensures small { IfSome result (λ n. IsNearSmall (motion_of n)) }
{
    near_member(frame, &group.lattice().home(m), point)
}

/// The near members that map the line through the point to itself, in the order of the group's operations.
pub(crate) fn near_members(
    alloc: Global,
    group: &Group,
    frame: &RodFrame,
    point: &[Part; 3],
) -> Result<Vec<Motion3>, NoMemory>
    requires made { IsRodMadeFor group.now frame.now }
    requires point { IsVectorWithin largest_entry (parts point.now) }
    ensures list { IfOk result (λ ms.
        IsListOf (SameModulo (group_listing group.now)) (group_listing group.now).ops
        (IsNear (basis_of_rod frame.now) (parts point.now))
        (InLineStabiliser (group_listing group.now) (direction_of frame.now.direction)
        (counted (parts point.now))) (map motion_of ms.items)) }
    ensures small { IfOk result (λ ms. All (λ m. IsNearSmall (motion_of m)) ms.items) }
{
    members_among(alloc, group, frame, group.ops(), point)
}

/// Of each operation, in order, the near member that is the same modulo the lattice and maps the line to itself.
fn members_among(
    alloc: Global,
    group: &Group,
    frame: &RodFrame,
    ops: &[Motion3],
    point: &[Part; 3],
) -> Result<Vec<Motion3>, NoMemory>
    requires made { IsRodMadeFor group.now frame.now }
    requires point { IsVectorWithin largest_entry (parts point.now) }
    requires small { All (IsSmallWithin (unsigned_abs MAX_ENTRY)) (map motion_of ops.now) }
    requires members { All (IsMember (group_listing group.now)) (map motion_of ops.now) }
    ensures chosen { IfOk result (λ ms.
        AreChosen (SameModulo (group_listing group.now))
        (IsNear (basis_of_rod frame.now) (parts point.now))
        (InLineStabiliser (group_listing group.now) (direction_of frame.now.direction)
        (counted (parts point.now)))
        (map motion_of ops.now) (map motion_of ms.items)) }
    ensures small { IfOk result (λ ms. All (λ m. IsNearSmall (motion_of m)) ms.items) }
{
    let mut members = Vec::new(alloc);
    for m in ops {
        if let Some(member) = member(group, frame, m, point) {
            members.push(member)?;
        }
    }
    Ok(members)
}
