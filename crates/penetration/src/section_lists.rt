// What the motions of a list do along a line.
ghost use Rattle.std.specs.Prelude.{All, IfOk, List, map};
ghost use Rattle.symmetry.specs.Motions.{Motion};
ghost use Rattle.symmetry.specs.Sizes.{IsVectorWithin};
ghost use Rattle.motions.specs.RodMotions.{rod_of};
ghost use Rattle.motions.specs.Views.{motion_of, parts};
ghost use Rattle.closure.specs.Groups.{group_listing};
ghost use Rattle.recognition.specs.RodTests.{IsSmallRod};
ghost use Rattle.plane_lattice.specs.Bounds.{largest_entry};
ghost use Rattle.penetration.specs.DirectionView.{direction_of};
ghost use Rattle.penetration.specs.Lines.{InLineStabiliser};
ghost use Rattle.penetration.specs.RodFrameView.{basis_of_rod, IsRodMadeFor};
ghost use Rattle.penetration.specs.RodFrames.{AreRodOperations};
ghost use Rattle.penetration.specs.RodHomes.{IsNear, IsNearSmall};
ghost use Rattle.penetration.specs.RodSections.{AreSections, counted};

use crate::frame::RodFrame;
use crate::members::NoMemory;
use closure::Group;
use fractions::Part;
use motions::{Motion3, RodMotion};
use std::alloc::Global;

/// What each of the near members does along the line through the point that it maps to itself.
pub(crate) fn sections(
    alloc: Global,
    group: &Group,
    frame: &RodFrame,
    members: &[Motion3],
    point: &[Part; 3],
) -> Result<Vec<RodMotion>, NoMemory>
    requires made { IsRodMadeFor group.now frame.now }
    requires point { IsVectorWithin largest_entry (parts point.now) }
    requires in_stabiliser { All (λ m.
        InLineStabiliser (group_listing group.now) (direction_of frame.now.direction)
        (counted (parts point.now)) (motion_of m)) members.now }
    requires near { All (λ m. IsNear (basis_of_rod frame.now) (parts point.now) (motion_of m))
        members.now }
    requires small { All (λ m. IsNearSmall (motion_of m)) members.now }
    ensures acts { IfOk result (λ section. (rods : List Motion) →
        AreRodOperations (group_listing group.now) (direction_of frame.now.direction) rods →
        AreSections (direction_of frame.now.direction) (basis_of_rod frame.now) rods
        (counted (parts point.now)) (map motion_of members.now) (map rod_of section.items)) }
    ensures small { IfOk result (λ section. All IsSmallRod section.items) }
{
    let mut section = Vec::new(alloc);
    for m in members {
        if let Some(n) = frame.section(group, m, *point) {
            section.push(n)?;
        }
    }
    Ok(section)
}
