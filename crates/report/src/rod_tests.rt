// Worked rods, by hand.
ghost use Rattle.integers.specs.Size.{IsWithin};
ghost use Rattle.symmetry.specs.Sizes.{IsVectorWithin};
ghost use Rattle.motions.specs.Views.{parts};
ghost use Rattle.plane_lattice.specs.Bounds.{largest_entry};

use crate::rods::rod_text;
use closure::Group;
use fractions::{Part, UNIT};
use penetration::{Direction, RodBasis, RodFrame, rod_at};
use sample_groups::{EDGE, HALF, NONE, ORIGIN, p_1, p_3, p2, p4_1};
use std::alloc::Global;
use std::test::Fail;
use triplets::read_group;

const SCREWS: &str = "\
line 0 0 1
through 0,0,0
axis 0,0,1
a 1,0,0
b 0,1,0
type 24 p4_1
basis 1,0,0 0,1,0 0,0,1
origin 0,0,0
op x,y,z
op -x,-y,z+1/2
op -y,x,z+1/4
op y,-x,z+3/4
end
";

const BESIDE_THE_SCREWS: &str = "\
line 0 0 1
through 1/2,0,0
axis 0,0,1
a 1,0,0
b 0,1,0
type 9 p112_1
basis 1,0,0 0,1,0 0,0,1
origin 1/2,0,0
op x,y,z
op -x+1,-y,z+1/2
end
";

const BELOW_A_CENTRE: &str = "\
line 0 0 1
through 0,0,1/8
axis 0,0,1
a 1,0,0
b 0,1,0
type 2 p-1
basis 1,0,0 0,1,0 0,0,1
origin 0,0,1/2
op x,y,z
op -x,-y,-z
end
";

const CUBE_DIAGONAL: &str = "\
line 1 1 1
through 0,0,0
axis 1,1,1
a 2/3,-1/3,-1/3
b -1/3,2/3,-1/3
type 51 p-31m
basis 2/3,-1/3,-1/3 -1/3,2/3,-1/3 1,1,1
origin 0,0,0
op x,y,z
";

const NARROW_FRAME: &str = "\
line 1 1 1
through 0,0,0
axis 1,1,1
a 2/3,-1/3,-1/3
b 1/3,1/3,-2/3
type 45 p-3
basis 2/3,-1/3,-1/3 -1/3,-1/3,2/3 -1,-1,-1
origin 0,0,0
op x,y,z
op z,x,y
op y,z,x
op -x,-y,-z
op -z,-x,-y
op -y,-z,-x
end
";

const ACROSS_A_TURN: &str = "\
line 0 0 1
through 0,0,0
axis 0,0,1
a 1,0,0
b 0,1,0
type 3 p211
basis 0,1,0 1,0,0 0,0,-1
origin 0,0,0
op x,y,z
op -x,y,-z
end
";

const OBLIQUE_FRAME: &str = "\
line 0 0 1
through 0,0,0
axis 0,0,1
a 1,0,0
b 3,1,0
type unrecognised
op x,y,z
op -x,y,-z
end
";

// The first cell edge, and a multiple of it and the second edge.
fn edges(times: i64) -> RodBasis
    requires { IsWithin 3 times }
{
    RodBasis {
        a: [EDGE, NONE, NONE],
        b: [Part(times * UNIT), EDGE, NONE],
    }
}

// The text of the line of a direction through the point.
fn text_of(
    alloc: Global,
    group: &Group,
    direction: [i64; 3],
    basis: RodBasis,
    point: [Part; 3],
) -> Result<Vec<u8>, Fail>
    requires { IsVectorWithin largest_entry (parts point) }
{
    let [u, v, w] = direction;
    let frame = RodFrame::make(group, Direction::make(u, v, w)?, basis)?;
    Ok(rod_text(alloc, &rod_at(alloc, group, &frame, point)?)?)
}

#[test]
fn screws_by_a_quarter(rt: HostRuntime) -> Result<(), Fail> {
    let group = p4_1(rt.alloc())?;
    let text = text_of(rt.alloc(), &group, [0, 0, 1], edges(0), ORIGIN)?;
    assert_eq!(rt; text.as_slice(), SCREWS.as_bytes());
    Ok(())
}

#[test]
fn beside_the_axis_half_turns_are_left(rt: HostRuntime) -> Result<(), Fail> {
    let group = p4_1(rt.alloc())?;
    let point = [HALF, NONE, NONE];
    let text = text_of(rt.alloc(), &group, [0, 0, 1], edges(0), point)?;
    assert_eq!(rt; text.as_slice(), BESIDE_THE_SCREWS.as_bytes());
    Ok(())
}

#[test]
fn the_origin_is_a_centre_above_the_point(rt: HostRuntime) -> Result<(), Fail> {
    let group = p_1(rt.alloc())?;
    let point = [NONE, NONE, Part(UNIT / 8)];
    let text = text_of(rt.alloc(), &group, [0, 0, 1], edges(0), point)?;
    assert_eq!(rt; text.as_slice(), BELOW_A_CENTRE.as_bytes());
    Ok(())
}

#[test]
fn the_diagonal_of_a_cube_is_trigonal(rt: HostRuntime) -> Result<(), Fail> {
    let generators = read_group(rt.alloc(), b"generators\n-x,-y,-z\ny,z,x\n-y,x,z\n")?;
    let group = Group::generated(rt.alloc(), generators)?;
    let text = text_of(rt.alloc(), &group, [1, 1, 1], edges(0), ORIGIN)?;
    assert!(rt; text.as_slice().starts_with(CUBE_DIAGONAL.as_bytes()));
    Ok(())
}

#[test]
fn a_turned_basis_has_the_axis_downwards(rt: HostRuntime) -> Result<(), Fail> {
    let group = p_3(rt.alloc())?;
    let text = text_of(rt.alloc(), &group, [1, 1, 1], edges(1), ORIGIN)?;
    assert_eq!(rt; text.as_slice(), NARROW_FRAME.as_bytes());
    let turns = p2(rt.alloc())?;
    let text = text_of(rt.alloc(), &turns, [0, 0, 1], edges(0), ORIGIN)?;
    assert_eq!(rt; text.as_slice(), ACROSS_A_TURN.as_bytes());
    Ok(())
}

// In a frame whose b leans by three a no vector with entries of at most 2 lies along the turn.
#[test]
fn in_an_oblique_frame_no_change_is_bounded(rt: HostRuntime) -> Result<(), Fail> {
    let group = p2(rt.alloc())?;
    let text = text_of(rt.alloc(), &group, [0, 0, 1], edges(3), ORIGIN)?;
    assert_eq!(rt; text.as_slice(), OBLIQUE_FRAME.as_bytes());
    Ok(())
}
