// Worked cases, by hand.
use crate::surveyed::Surveyed;
use crate::surveying::survey;
use sample_groups::{p_1, p4};
use std::test::Fail;

// The indices of an orientation, how many triples are equivalent to it, and its special heights.
fn told(surveyed: &Surveyed) -> ([i64; 3], u32, u32) {
    let plane = surveyed.plane;
    (
        [plane.h, plane.k, plane.l],
        surveyed.images,
        surveyed.special,
    )
}

#[test]
fn an_inversion_makes_each_orientation_its_own_class(rt: HostRuntime) -> Result<(), Fail> {
    let group = p_1(rt.alloc())?;
    let list = survey(rt.alloc(), &group, 1)?;
    let planes = [
        [1, 1, 1],
        [1, 1, 0],
        [1, 1, -1],
        [1, 0, 1],
        [1, 0, 0],
        [1, 0, -1],
        [1, -1, 1],
        [1, -1, 0],
        [1, -1, -1],
        [0, 1, 1],
        [0, 1, 0],
        [0, 1, -1],
        [0, 0, 1],
    ];
    assert_eq!(rt; list.len(), planes.len());
    for (surveyed, plane) in list.iter().zip(planes) {
        assert_eq!(rt; told(surveyed), (plane, 2, 2));
    }
    Ok(())
}

#[test]
fn a_fourfold_axis_turns_what_stands_along_it(rt: HostRuntime) -> Result<(), Fail> {
    let group = p4(rt.alloc())?;
    let list = survey(rt.alloc(), &group, 1)?;
    let wanted = [
        ([1, 1, 1], 8, 0),
        ([1, 1, 0], 4, 2),
        ([1, 0, 1], 8, 0),
        ([1, 0, 0], 4, 2),
        ([0, 0, 1], 2, 0),
    ];
    assert_eq!(rt; list.len(), wanted.len());
    for (surveyed, want) in list.iter().zip(wanted) {
        assert_eq!(rt; told(surveyed), want);
    }
    Ok(())
}
