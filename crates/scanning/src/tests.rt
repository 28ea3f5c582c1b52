// Worked cases, by hand.
ghost use Rattle.std.specs.Prelude.{◌^◌, ◌≤ℤ◌, pos};
ghost use Rattle.integers.specs.Size.{IsWithin};

use crate::at_fault::AtFault;
use crate::class::Place;
use crate::scan::Scan;
use closure::Group;
use fractions::{Part, Ratio, UNIT};
use motions::{Basis, Miller, Motion3};
use plane_lattice::Frame;
use sample_groups::{
    EDGE, FAR_INVERSION, HALF, IDENTITY, INVERSION, NEXT_INVERSION, NONE, TURN_ABOUT_B, c2_over_m,
    c2_over_m_edges, cell_edges, edges_along_b, p_1, p2_1_over_c,
};
use std::alloc::Global;
use std::test::Fail;

// -x-1/2,-y+1/2,-z
const RAISED_INVERSION: Motion3 = Motion3 {
    w: [[-1, 0, 0], [0, -1, 0], [0, 0, -1]],
    t: [Part(-UNIT / 2), HALF, NONE],
};

// x-1/2,-y+1/2,z
const GLIDE: Motion3 = Motion3 {
    w: [[1, 0, 0], [0, -1, 0], [0, 0, 1]],
    t: [Part(-UNIT / 2), HALF, NONE],
};

// x,-y+1/2,z-1/2
const LOW_GLIDE: Motion3 = Motion3 {
    w: [[1, 0, 0], [0, -1, 0], [0, 0, 1]],
    t: [NONE, HALF, Part(-UNIT / 2)],
};

// x,-y+3/2,z-1/2
const HIGH_GLIDE: Motion3 = Motion3 {
    w: [[1, 0, 0], [0, -1, 0], [0, 0, 1]],
    t: [NONE, Part(3 * UNIT / 2), Part(-UNIT / 2)],
};

// -x,-y+1,-z
const INVERSION_ABOVE: Motion3 = Motion3 {
    w: [[-1, 0, 0], [0, -1, 0], [0, 0, -1]],
    t: [NONE, EDGE, NONE],
};

// -x,-y,-z+2000000000
const FARTHEST_INVERSION: Motion3 = Motion3 {
    w: [[-1, 0, 0], [0, -1, 0], [0, 0, -1]],
    t: [NONE, NONE, Part(2_000_000_000 * UNIT)],
};

// The scan along the plane in the frame with the basis.
fn scan_along(alloc: Global, group: &Group, plane: Miller, basis: Basis) -> Result<Scan, Fail> {
    let frame = Frame::make(group, plane, basis)?;
    Ok(Scan::make(alloc, group, &frame)?)
}

// The operations at the height num/den, in the frame of the plane with the basis.
fn operations(
    alloc: Global,
    group: &Group,
    plane: Miller,
    basis: Basis,
    num: i128,
    den: i128,
) -> Result<Vec<Motion3>, Fail>
    requires num { IsWithin (10 ^ 9) num }
    requires den { IsWithin (10 ^ 9) den }
    requires positive { pos 1 ≤ℤ den }
{
    let scan = scan_along(alloc, group, plane, basis)?;
    Ok(scan.ops_at(alloc, Ratio::make(num, den).unwrap())?)
}

#[test]
fn a_glide_and_an_inversion_stand_at_a_quarter_of_c2_over_m(rt: HostRuntime) -> Result<(), Fail> {
    let group = c2_over_m(rt.alloc())?;
    let ops = operations(
        rt.alloc(),
        &group,
        Miller::make(0, 1, 0)?,
        c2_over_m_edges(),
        1,
        4,
    )?;
    assert_eq!(rt;
        ops.as_slice(),
        [IDENTITY, TURN_ABOUT_B, RAISED_INVERSION, GLIDE].as_slice()
    );
    Ok(())
}

#[test]
fn a_general_plane_of_c2_over_m_has_the_turn(rt: HostRuntime) -> Result<(), Fail> {
    let group = c2_over_m(rt.alloc())?;
    let ops = operations(
        rt.alloc(),
        &group,
        Miller::make(0, 1, 0)?,
        c2_over_m_edges(),
        1,
        3,
    )?;
    assert_eq!(rt; ops.as_slice(), [IDENTITY, TURN_ABOUT_B].as_slice());
    Ok(())
}

#[test]
fn an_inversion_is_raised_to_each_half_of_p_1(rt: HostRuntime) -> Result<(), Fail> {
    let group = p_1(rt.alloc())?;
    let plane = Miller::make(0, 0, 1)?;
    let near = operations(rt.alloc(), &group, plane, cell_edges(), 1, 2)?;
    let far = operations(rt.alloc(), &group, plane, cell_edges(), -7, 2)?;
    assert_eq!(rt; near.as_slice(), [IDENTITY, NEXT_INVERSION].as_slice());
    assert_eq!(rt; far.as_slice(), [IDENTITY, FAR_INVERSION].as_slice());
    Ok(())
}

// P2_1/c along b, with a, -c and b.
fn p2_1_over_c_along_b(alloc: Global) -> Result<Scan, Fail> {
    let group = p2_1_over_c(alloc)?;
    scan_along(alloc, &group, Miller::make(0, 1, 0)?, edges_along_b())
}

// P-1 along c.
fn p_1_along_c(alloc: Global) -> Result<Scan, Fail> {
    let group = p_1(alloc)?;
    scan_along(alloc, &group, Miller::make(0, 0, 1)?, cell_edges())
}

#[test]
fn inversions_and_glides_of_p2_1_over_c_take_turns_along_b(rt: HostRuntime) -> Result<(), Fail> {
    let scan = p2_1_over_c_along_b(rt.alloc())?;
    let classes = [
        (0, 1, [IDENTITY, INVERSION]),
        (1, 4, [IDENTITY, LOW_GLIDE]),
        (1, 2, [IDENTITY, INVERSION_ABOVE]),
        (3, 4, [IDENTITY, HIGH_GLIDE]),
    ];
    assert_eq!(rt; scan.general.as_slice(), [IDENTITY].as_slice());
    assert_eq!(rt; scan.special.len(), classes.len());
    for (height, (num, den, ops)) in scan.special.iter().zip(classes) {
        assert_eq!(rt; height.s.num(), num);
        assert_eq!(rt; height.s.den(), den);
        assert_eq!(rt; height.ops.as_slice(), ops.as_slice());
    }
    Ok(())
}

#[test]
fn a_height_stands_whole_periods_above_or_below_a_special_one(rt: HostRuntime) -> Result<(), Fail> {
    let scan = p2_1_over_c_along_b(rt.alloc())?;
    let above = scan.class_at(Ratio::make(9, 4).unwrap());
    let below = scan.class_at(Ratio::make(-1, 4).unwrap());
    let between = scan.class_at(Ratio::make(1, 3).unwrap());
    assert_eq!(rt; above, Place::Special { index: 1, k: 2 });
    assert_eq!(rt; below, Place::Special { index: 3, k: -1 });
    assert_eq!(rt; between, Place::General);
    Ok(())
}

#[test]
fn the_inversion_of_p_1_is_raised_to_any_height(rt: HostRuntime) -> Result<(), Fail> {
    let scan = p_1_along_c(rt.alloc())?;
    let far = scan.ops_at(rt.alloc(), Ratio::make(-7, 2).unwrap())?;
    let between = scan.ops_at(rt.alloc(), Ratio::make(1, 3).unwrap())?;
    let farthest = scan.ops_at(rt.alloc(), Ratio::make(1_000_000_000, 1).unwrap())?;
    assert_eq!(rt; far.as_slice(), [IDENTITY, FAR_INVERSION].as_slice());
    assert_eq!(rt; between.as_slice(), [IDENTITY].as_slice());
    assert_eq!(rt;
        farthest.as_slice(),
        [IDENTITY, FARTHEST_INVERSION].as_slice()
    );
    Ok(())
}

#[test]
fn a_height_beyond_the_limit_is_large(rt: HostRuntime) -> Result<(), Fail> {
    let scan = p_1_along_c(rt.alloc())?;
    let beyond = scan.ops_at(rt.alloc(), Ratio::make(1_000_000_001, 1).unwrap());
    let fine = scan.ops_at(rt.alloc(), Ratio::make(1, 1_000_000_001).unwrap());
    assert_eq!(rt; beyond.err(), Some(AtFault::Large));
    assert_eq!(rt; fine.err(), Some(AtFault::Large));
    Ok(())
}
