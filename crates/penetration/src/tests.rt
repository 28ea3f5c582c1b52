// Worked cases, by hand.
ghost use Rattle.std.specs.Prelude.{◌*◌, unsigned_abs};
ghost use Rattle.fractions.specs.declared.part.TheConstants.{UNIT};
ghost use Rattle.symmetry.specs.Sizes.{IsVectorWithin};
ghost use Rattle.motions.specs.Views.{parts};

use crate::at::rod_at;
use crate::direction::Direction;
use crate::frame::{RodBasis, RodFrame};
use crate::rod::Rod;
use closure::Group;
use fractions::{Part, UNIT};
use motions::{FrameFault, Motion3, PlaneFault};
use sample_groups::{
    EDGE, FOURFOLD_SCREW, HALF, IDENTITY, INVERSION, NONE, ORIGIN, p_1, p_3, p4_1,
};
use std::alloc::Global;
use std::test::Fail;

const ONE: [[i64; 2]; 2] = [[1, 0], [0, 1]];

// -x+1,-y,z+1/2
const MOVED_HALF_TURN: Motion3 = Motion3 {
    w: [[-1, 0, 0], [0, -1, 0], [0, 0, 1]],
    t: [EDGE, NONE, HALF],
};

// the first two cell edges
fn edges() -> RodBasis {
    RodBasis {
        a: [EDGE, NONE, NONE],
        b: [NONE, EDGE, NONE],
    }
}

fn rod_through(
    alloc: Global,
    group: &Group,
    direction: Direction,
    point: [Part; 3],
) -> Result<Rod, Fail>
    requires { IsVectorWithin (1000 * unsigned_abs UNIT) (parts point) }
{
    let frame = RodFrame::make(group, direction, edges())?;
    Ok(rod_at(alloc, group, &frame, point)?)
}

// Whether the rod has this type with the first two vectors as its own and this origin.
fn is_of_type(rod: &Rod, number: u8, z: u32) -> bool {
    match rod.found {
        Some(found) => found.number == number && found.p == ONE && found.z == z,
        None => false,
    }
}

#[test]
fn screws_by_a_quarter_are_a_rod_of_their_own(rt: HostRuntime) -> Result<(), Fail> {
    let group = p4_1(rt.alloc())?;
    let rod = rod_through(rt.alloc(), &group, Direction::make(0, 0, 1)?, ORIGIN)?;
    assert!(rt; rod.frame.axis == [NONE, NONE, EDGE]);
    assert!(rt; rod.ops[..] == FOURFOLD_SCREW[..]);
    assert!(rt; is_of_type(&rod, 24, 0));
    Ok(())
}

#[test]
fn beside_the_axis_half_turns_are_left(rt: HostRuntime) -> Result<(), Fail> {
    let group = p4_1(rt.alloc())?;
    let rod = rod_through(
        rt.alloc(),
        &group,
        Direction::make(0, 0, 1)?,
        [HALF, NONE, NONE],
    )?;
    assert!(rt; rod.ops[..] == [IDENTITY, MOVED_HALF_TURN][..]);
    assert!(rt; is_of_type(&rod, 9, 0));
    Ok(())
}

#[test]
fn a_centre_above_the_point_is_the_origin(rt: HostRuntime) -> Result<(), Fail> {
    let group = p_1(rt.alloc())?;
    let rod = rod_through(
        rt.alloc(),
        &group,
        Direction::make(0, 0, 1)?,
        [NONE, NONE, Part(UNIT / 8)],
    )?;
    assert!(rt; rod.ops[..] == [IDENTITY, INVERSION][..]);
    assert!(rt; is_of_type(&rod, 2, 36));
    Ok(())
}

#[test]
fn across_the_diagonal_the_edges_are_made_level(rt: HostRuntime) -> Result<(), Fail> {
    let group = p_3(rt.alloc())?;
    let rod = rod_through(rt.alloc(), &group, Direction::make(1, 1, 1)?, ORIGIN)?;
    assert!(rt; rod.frame.axis == [EDGE, EDGE, EDGE]);
    let across = &rod.frame.across[..];
    if let Some(a) = across.first() {
        assert_eq!(rt; a[0].num(), 2);
        assert_eq!(rt; a[0].den(), 3);
    }
    if let Some(b) = across.last() {
        assert_eq!(rt; b[2].num(), -1);
        assert_eq!(rt; b[2].den(), 3);
    }
    assert_eq!(rt; rod.ops.len(), 6);
    assert!(rt; is_of_type(&rod, 45, 0));
    Ok(())
}

#[test]
fn directions_and_frames_are_refused(rt: HostRuntime) -> Result<(), Fail> {
    assert!(rt; Direction::make(0, 0, 2) == Err(PlaneFault::NotCoprime(2)));
    let group = p_1(rt.alloc())?;
    let frame = RodFrame::make(&group, Direction::make(0, 1, 0)?, edges());
    assert!(rt; frame == Err(FrameFault::NotFrame));
    Ok(())
}
