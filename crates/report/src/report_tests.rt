// Worked reports, by hand.
use crate::at::at_text;
use crate::report::Report;
use crate::slab::slab_text;
use closure::Group;
use fractions::Ratio;
use motions::{Basis, Miller};
use plane_lattice::Frame;
use sample_groups::{
    FAR_INVERSION, IDENTITY, NEXT_INVERSION, c2_over_m, c2_over_m_edges, cell_edges, p_1, p1,
};
use std::alloc::Global;
use std::test::Fail;

const P1: &str = "\
plane 0 0 1
period 1
a 1,0,0
b 0,1,0
tau 0,0,1
c 0,0,1
general planes 1
type 1 p1
basis 1,0,0 0,1,0 0,0,1
origin 0,0,0 + s/d c
op x,y,z
end
";

const P1_JSON: &str = "\
{\"a\":\"1,0,0\",\"b\":\"0,1,0\",\"c\":\"0,0,1\",\
\"general\":{\"ops\":[\"x,y,z\"],\"planes\":1,\
\"type\":{\"basis\":[\"1,0,0\",\"0,1,0\",\"0,0,1\"],\"number\":1,\"origin\":\"0,0,0\",\"symbol\":\"p1\"}},\
\"heights\":[],\"period\":\"1\",\"plane\":[0,0,1],\"tau\":\"0,0,1\"}
";

const P_1: &str = "\
plane 0 0 1
period 1
a 1,0,0
b 0,1,0
tau 0,0,1
c 0,0,1
general planes 2
type 1 p1
basis 1,0,0 0,1,0 0,0,1
origin 0,0,0 + s/d c
op x,y,z
height 0 orbit 1
type 2 p-1
basis 1,0,0 0,1,0 0,0,1
origin 0,0,0
op x,y,z
op -x,-y,-z
height 1/2 orbit 2
type 2 p-1
basis 1,0,0 0,1,0 0,0,1
origin 0,0,1/2
op x,y,z
op -x,-y,-z+1
end
";

const C2_OVER_M: &str = "\
plane 0 1 0
period 1/2
a 1,0,0
b 0,0,-1
tau -1/2,1/2,0
c 0,1/2,0
general planes 2
type 3 p112
basis 1,0,0 0,0,-1 0,1/2,0
origin 0,0,0 + s/d c
op x,y,z
op -x,y,-z
height 0 orbit 1
type 6 p112/m
basis 1,0,0 0,0,-1 0,1/2,0
origin 0,0,0
op x,y,z
op -x,y,-z
op -x,-y,-z
op x,-y,z
height 1/4 orbit 2
type 7 p112/a
basis 1,0,0 0,0,-1 0,1/2,0
origin -1/4,1/4,0
op x,y,z
op -x,y,-z
op -x-1/2,-y+1/2,-z
op x-1/2,-y+1/2,z
end
";

// The report of an orientation.
fn report_of(alloc: Global, group: &Group, plane: Miller, basis: Basis) -> Result<Report, Fail> {
    let frame = Frame::make(group, plane, basis)?;
    Ok(Report::make(alloc, group, &frame)?)
}

// The text of the report of an orientation.
fn text_of(alloc: Global, group: &Group, plane: Miller, basis: Basis) -> Result<Vec<u8>, Fail> {
    Ok(report_of(alloc, group, plane, basis)?.text(alloc)?)
}

#[test]
fn an_inversion_far_below(rt: HostRuntime) -> Result<(), Fail> {
    let s = Ratio::make(-7, 2).unwrap();
    let text = at_text(rt.alloc(), s, &[IDENTITY, FAR_INVERSION])?;
    let expected = "height -7/2\nop x,y,z\nop -x,-y,-z-7\nend\n";
    assert_eq!(rt; text.as_slice(), expected.as_bytes());
    Ok(())
}

#[test]
fn an_inversion_in_the_middle_of_a_period(rt: HostRuntime) -> Result<(), Fail> {
    let low = Ratio::make(0, 1).unwrap();
    let high = Ratio::make(1, 1).unwrap();
    let text = slab_text(rt.alloc(), low, high, &[IDENTITY, NEXT_INVERSION])?;
    let expected = "slab 0 1\nmiddle 1/2\nop x,y,z\nop -x,-y,-z+1\nend\n";
    assert_eq!(rt; text.as_slice(), expected.as_bytes());
    Ok(())
}

#[test]
fn p1_has_no_special_height(rt: HostRuntime) -> Result<(), Fail> {
    let group = p1(rt.alloc())?;
    let text = text_of(rt.alloc(), &group, Miller::make(0, 0, 1)?, cell_edges())?;
    assert_eq!(rt; text.as_slice(), P1.as_bytes());
    Ok(())
}

#[test]
fn p1_has_its_json(rt: HostRuntime) -> Result<(), Fail> {
    let group = p1(rt.alloc())?;
    let report = report_of(rt.alloc(), &group, Miller::make(0, 0, 1)?, cell_edges())?;
    let line = report.json(rt.alloc())?;
    assert_eq!(rt; line.as_slice(), P1_JSON.as_bytes());
    Ok(())
}

#[test]
fn p_1_has_an_inversion_at_each_half(rt: HostRuntime) -> Result<(), Fail> {
    let group = p_1(rt.alloc())?;
    let text = text_of(rt.alloc(), &group, Miller::make(0, 0, 1)?, cell_edges())?;
    assert_eq!(rt; text.as_slice(), P_1.as_bytes());
    Ok(())
}

#[test]
fn c2_over_m_has_two_orbits_along_its_axis(rt: HostRuntime) -> Result<(), Fail> {
    let group = c2_over_m(rt.alloc())?;
    let plane = Miller::make(0, 1, 0)?;
    let text = text_of(rt.alloc(), &group, plane, c2_over_m_edges())?;
    assert_eq!(rt; text.as_slice(), C2_OVER_M.as_bytes());
    Ok(())
}
