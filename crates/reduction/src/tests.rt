// Worked cases.
use crate::reduced::reduced_frame;
use fractions::{Part, UNIT};
use motions::Miller;
use sample_groups::{EDGE, HALF, IDENTITY, INVERSION, NONE, THREEFOLD, group_of, p_1, p3};
use std::test::Fail;

// the centring vector of I
const CENTRING: [Part; 3] = [HALF, HALF, HALF];

// those of F, and two that make the same lattice
const FACES: [[Part; 3]; 3] = [[NONE, HALF, HALF], [HALF, NONE, HALF], [HALF, HALF, NONE]];

const OTHER_FACES: [[Part; 3]; 2] = [
    [Part(-UNIT / 2), HALF, EDGE],
    [NONE, Part(UNIT + UNIT / 2), HALF],
];

#[test]
fn the_shortest_vector_of_a_plane_is_a(rt: HostRuntime) -> Result<(), Fail> {
    let group = p_1(rt.alloc())?;
    let frame = reduced_frame(&group, Miller::make(7, -5, 12)?)?;
    assert_eq!(rt; frame.period, EDGE);
    let [x, y, z] = frame.a;
    assert_eq!(rt; x.0.unsigned_abs(), EDGE.0.unsigned_abs());
    assert_eq!(rt; y.0.unsigned_abs(), EDGE.0.unsigned_abs());
    assert!(rt; x != y);
    assert_eq!(rt; y, z);
    Ok(())
}

#[test]
fn the_cell_edges_are_taken_for_001(rt: HostRuntime) -> Result<(), Fail> {
    let plane = Miller::make(0, 0, 1)?;
    let group = p_1(rt.alloc())?;
    let triclinic = reduced_frame(&group, plane)?;
    assert_eq!(rt; triclinic.a, [EDGE, NONE, NONE]);
    assert_eq!(rt; triclinic.b, [NONE, EDGE, NONE]);
    assert_eq!(rt; triclinic.tau, [NONE, NONE, EDGE]);
    let group = p3(rt.alloc())?;
    let trigonal = reduced_frame(&group, plane)?;
    assert_eq!(rt; trigonal.a, [EDGE, NONE, NONE]);
    assert_eq!(rt; trigonal.b, [NONE, EDGE, NONE]);
    assert_eq!(rt; trigonal.tau, [NONE, NONE, EDGE]);
    Ok(())
}

#[test]
fn the_first_entry_of_a_that_is_not_0_is_positive(rt: HostRuntime) -> Result<(), Fail> {
    let opposite_edge = Part(-UNIT);
    let group = p_1(rt.alloc())?;
    let along_a = reduced_frame(&group, Miller::make(1, 0, 0)?)?;
    assert_eq!(rt; along_a.a, [NONE, NONE, EDGE]);
    assert_eq!(rt; along_a.b, [NONE, opposite_edge, NONE]);
    assert_eq!(rt; along_a.tau, [EDGE, NONE, NONE]);
    let along_b = reduced_frame(&group, Miller::make(0, 1, 0)?)?;
    assert_eq!(rt; along_b.a, [NONE, NONE, EDGE]);
    assert_eq!(rt; along_b.b, [EDGE, NONE, NONE]);
    assert_eq!(rt; along_b.tau, [NONE, EDGE, NONE]);
    let downward = reduced_frame(&group, Miller::make(0, 0, -1)?)?;
    assert_eq!(rt; downward.a, [EDGE, NONE, NONE]);
    assert_eq!(rt; downward.b, [NONE, opposite_edge, NONE]);
    assert_eq!(rt; downward.tau, [NONE, NONE, opposite_edge]);
    Ok(())
}

#[test]
fn planes_of_a_centred_lattice_follow_at_half_an_edge(rt: HostRuntime) -> Result<(), Fail> {
    let group = group_of(rt.alloc(), &[IDENTITY, INVERSION], &[CENTRING])?;
    let frame = reduced_frame(&group, Miller::make(0, 0, 1)?)?;
    assert_eq!(rt; frame.period, HALF);
    let [x, y, z] = frame.tau;
    assert_eq!(rt; x.0.unsigned_abs(), HALF.0.unsigned_abs());
    assert_eq!(rt; y.0.unsigned_abs(), HALF.0.unsigned_abs());
    assert_eq!(rt; z, HALF);
    Ok(())
}

#[test]
fn the_listing_of_a_group_does_not_matter(rt: HostRuntime) -> Result<(), Fail> {
    let plane = Miller::make(1, 1, 1)?;
    let group = group_of(rt.alloc(), &[IDENTITY, INVERSION], &FACES)?;
    let other = group_of(rt.alloc(), &[INVERSION, IDENTITY], &OTHER_FACES)?;
    assert_eq!(rt; reduced_frame(&group, plane), reduced_frame(&other, plane));
    let plane = Miller::make(0, 0, 1)?;
    let group = p3(rt.alloc())?;
    let [identity, turn, other_turn] = THREEFOLD;
    let other = group_of(rt.alloc(), &[other_turn, identity, turn], &[])?;
    assert_eq!(rt; reduced_frame(&group, plane), reduced_frame(&other, plane));
    Ok(())
}

#[test]
fn large_indices_have_a_frame(rt: HostRuntime) -> Result<(), Fail> {
    let group = group_of(rt.alloc(), &[IDENTITY, INVERSION], &[CENTRING])?;
    let frame = reduced_frame(&group, Miller::make(255, 254, 253)?)?;
    assert_eq!(rt; frame.period, EDGE);
    let frame = reduced_frame(&group, Miller::make(-255, 254, 253)?)?;
    assert_eq!(rt; frame.period, EDGE);
    Ok(())
}
