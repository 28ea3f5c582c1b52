// Worked cases, by hand.
use crate::frame::Frame;
use fractions::{Part, UNIT};
use motions::{Basis, FrameFault, Miller, Motion3};
use quotient::Quotient;
use sample_groups::{EDGE, HALF, NONE, c2_over_m, c2_over_m_edges, cell_edges, p_1, p2};
use std::test::Fail;

// x+1/2,-y+1/2,z and x-1/2,-y+1/2,z
const FAR_GLIDE: Motion3 = Motion3 {
    w: [[1, 0, 0], [0, -1, 0], [0, 0, 1]],
    t: [HALF, HALF, NONE],
};

const GLIDE: Motion3 = Motion3 {
    w: [[1, 0, 0], [0, -1, 0], [0, 0, 1]],
    t: [Part(-UNIT / 2), HALF, NONE],
};

#[test]
fn c2_over_m_along_its_axis_has_half_an_edge_as_period(rt: HostRuntime) -> Result<(), Fail> {
    let group = c2_over_m(rt.alloc())?;
    let frame = Frame::make(&group, Miller::make(0, 1, 0)?, c2_over_m_edges())?;
    assert_eq!(rt; frame.period, HALF);
    assert_eq!(rt; frame.c[0].num(), 0);
    assert_eq!(rt; frame.c[1].num(), 1);
    assert_eq!(rt; frame.c[1].den(), 2);
    assert_eq!(rt; frame.c[2].num(), 0);
    assert!(rt; frame.home(&FAR_GLIDE) == GLIDE);
    Ok(())
}

#[test]
fn a_triclinic_frame_leads_along_tau(rt: HostRuntime) -> Result<(), Fail> {
    let group = p_1(rt.alloc())?;
    let basis = Basis {
        a: [EDGE, EDGE, Part(-UNIT)],
        b: [Part(-3 * UNIT), Part(2 * UNIT), NONE],
        tau: [Part(-UNIT), EDGE, NONE],
    };
    let frame = Frame::make(&group, Miller::make(2, 3, 5)?, basis)?;
    assert_eq!(rt; frame.period, EDGE);
    assert_eq!(rt; frame.c[0].num(), -1);
    assert_eq!(rt; frame.c[1].num(), 1);
    assert_eq!(rt; frame.c[2].num(), 0);
    Ok(())
}

#[test]
fn left_handed_vectors_are_no_frame(rt: HostRuntime) -> Result<(), Fail> {
    let group = c2_over_m(rt.alloc())?;
    let Basis { a, b, tau } = c2_over_m_edges();
    assert_eq!(rt;
        Frame::make(&group, Miller::make(0, 1, 0)?, Basis { a: b, b: a, tau }),
        Err(FrameFault::NotFrame)
    );
    Ok(())
}

#[test]
fn cell_edges_are_no_frame_of_a_centred_lattice(rt: HostRuntime) -> Result<(), Fail> {
    let group = c2_over_m(rt.alloc())?;
    assert_eq!(rt;
        Frame::make(&group, Miller::make(0, 0, 1)?, cell_edges()),
        Err(FrameFault::NotFrame)
    );
    Ok(())
}

#[test]
fn a_frame_is_skewed_above_a_matrix_entry_of_500(rt: HostRuntime) -> Result<(), Fail> {
    let group = p2(rt.alloc())?;
    let plane = Miller::make(0, 0, 1)?;
    let Basis { a, tau, .. } = cell_edges();
    let at_the_limit = [Part(250 * UNIT), EDGE, NONE];
    let beyond_it = [Part(251 * UNIT), EDGE, NONE];
    assert!(rt;
        Frame::make(
            &group,
            plane,
            Basis {
                a,
                b: at_the_limit,
                tau
            }
        )
        .is_ok()
    );
    assert_eq!(rt;
        Frame::make(
            &group,
            plane,
            Basis {
                a,
                b: beyond_it,
                tau
            }
        ),
        Err(FrameFault::Skewed)
    );
    Ok(())
}
