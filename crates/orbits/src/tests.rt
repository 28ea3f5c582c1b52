// Worked cases, by hand.
use crate::orbit_fault::OrbitFault;
use crate::orbits::{Orbits, height_orbits};
use crate::rows::orientations;
use closure::Group;
use motions::{Basis, Miller};
use plane_lattice::Frame;
use sample_groups::{EDGE, NONE, cell_edges, edges_along_b, p2_1_over_c, p2_12_12_1, p3, p4_1};
use scanning::Scan;
use std::alloc::Global;
use std::test::Fail;

#[test]
fn a_fourfold_axis_makes_four_rows_of_a_plane_along_it(rt: HostRuntime) -> Result<(), Fail> {
    let group = p4_1(rt.alloc())?;
    let rows = orientations(rt.alloc(), &group, Miller::make(1, 0, 0)?)?;
    assert_eq!(rt;
        rows.as_slice(),
        [[1, 0, 0], [-1, 0, 0], [0, -1, 0], [0, 1, 0]].as_slice()
    );
    Ok(())
}

#[test]
fn a_fourfold_axis_makes_one_row_of_the_plane_across_it(rt: HostRuntime) -> Result<(), Fail> {
    let group = p4_1(rt.alloc())?;
    let rows = orientations(rt.alloc(), &group, Miller::make(0, 0, 1)?)?;
    assert_eq!(rt; rows.as_slice(), [[0, 0, 1]].as_slice());
    Ok(())
}

#[test]
fn a_threefold_axis_makes_a_row_that_is_too_wide(rt: HostRuntime) -> Result<(), Fail> {
    let group = p3(rt.alloc())?;
    let wide = orientations(rt.alloc(), &group, Miller::make(255, 254, 0)?);
    assert_eq!(rt; wide.err(), Some(OrbitFault::Wide));
    Ok(())
}

// The orbits of the planes of an orientation, in the frame with the basis.
fn orbits(alloc: Global, group: &Group, plane: Miller, basis: Basis) -> Result<Orbits, Fail> {
    let frame = Frame::make(group, plane, basis)?;
    let scan = Scan::make(alloc, group, &frame)?;
    Ok(height_orbits(alloc, &scan, group)?)
}

#[test]
fn an_inversion_and_a_glide_make_two_orbits_of_p2_1_over_c(rt: HostRuntime) -> Result<(), Fail> {
    let group = p2_1_over_c(rt.alloc())?;
    let orbits = orbits(rt.alloc(), &group, Miller::make(0, 1, 0)?, edges_along_b())?;
    assert_eq!(rt; orbits.of.as_slice(), [1, 2, 1, 2].as_slice());
    assert_eq!(rt; orbits.planes, 4);
    Ok(())
}

#[test]
fn two_screw_axes_make_two_orbits_of_p2_12_12_1(rt: HostRuntime) -> Result<(), Fail> {
    let group = p2_12_12_1(rt.alloc())?;
    let orbits = orbits(rt.alloc(), &group, Miller::make(0, 0, 1)?, cell_edges())?;
    assert_eq!(rt; orbits.of.as_slice(), [1, 2, 1, 2].as_slice());
    assert_eq!(rt; orbits.planes, 4);
    Ok(())
}

#[test]
fn a_fourfold_screw_axis_moves_each_plane_across_it_to_three_others(
    rt: HostRuntime,
) -> Result<(), Fail> {
    let group = p4_1(rt.alloc())?;
    let orbits = orbits(rt.alloc(), &group, Miller::make(0, 0, 1)?, cell_edges())?;
    assert_eq!(rt; orbits.of.len(), 0);
    assert_eq!(rt; orbits.planes, 4);
    Ok(())
}

#[test]
fn a_twofold_axis_in_the_plane_makes_an_orbit_of_each_special_height(
    rt: HostRuntime,
) -> Result<(), Fail> {
    let basis = Basis {
        a: [NONE, EDGE, NONE],
        b: [NONE, NONE, EDGE],
        tau: [EDGE, NONE, NONE],
    };
    let group = p4_1(rt.alloc())?;
    let orbits = orbits(rt.alloc(), &group, Miller::make(1, 0, 0)?, basis)?;
    assert_eq!(rt; orbits.of.as_slice(), [1, 2].as_slice());
    assert_eq!(rt; orbits.planes, 2);
    Ok(())
}
