// Frames of lines, by hand.
ghost use Rattle.std.specs.Prelude.{◌≡◌, ◌^◌, pos, All, IfOk, unsigned_abs};
ghost use Rattle.symmetry.specs.Sizes.{IsVectorWithin};
ghost use Rattle.motions.specs.ListedSizes.{IsSmallWithin};
ghost use Rattle.motions.specs.Views.{motion_of, parts};
ghost use Rattle.closure.specs.Groups.{group_listing};
ghost use Rattle.closure.specs.declared.group.TheConstants.{MAX_ENTRY};
ghost use Rattle.plane_motions.specs.PlaneMotions.{IsFlat};
ghost use Rattle.plane_groups.specs.PlaneGroups.{IsFlatGroup};

use crate::frame::line_frame;
use closure::{Group, GroupError};
use fractions::{Part, UNIT};
use motions::{Listed, Miller, Motion3};
use plane_lattice::Frame;
use std::alloc::Global;
use std::test::Fail;

const EDGE: Part = Part(UNIT);

const HALF: Part = Part(UNIT / 2);

const NONE: Part = Part(0);

const OPPOSITE: Part = Part(-UNIT);

// x,y
const IDENTITY: Motion3 = Motion3 {
    w: [[1, 0, 0], [0, 1, 0], [0, 0, 1]],
    t: [NONE, NONE, NONE],
};

// -x,-y
const TURN: Motion3 = Motion3 {
    w: [[-1, 0, 0], [0, -1, 0], [0, 0, 1]],
    t: [NONE, NONE, NONE],
};

// -x,y
const MIRROR: Motion3 = Motion3 {
    w: [[-1, 0, 0], [0, 1, 0], [0, 0, 1]],
    t: [NONE, NONE, NONE],
};

// -x+1/2,y
const MIRROR_AT_A_QUARTER: Motion3 = Motion3 {
    w: [[-1, 0, 0], [0, 1, 0], [0, 0, 1]],
    t: [HALF, NONE, NONE],
};

// x+1/2,-y
const GLIDE: Motion3 = Motion3 {
    w: [[1, 0, 0], [0, -1, 0], [0, 0, 1]],
    t: [HALF, NONE, NONE],
};

const CENTRING: [Part; 3] = [HALF, HALF, NONE];

fn group_of(alloc: Global, ops: &[Motion3], centrings: &[[Part; 3]]) -> Result<Group, GroupError>
    requires small { All (λ m. IsSmallWithin (unsigned_abs MAX_ENTRY) (motion_of m)) ops.now }
    requires centrings_small { All (λ v. IsVectorWithin (2 ^ 40) (parts v)) centrings.now }
    requires flat { All (λ m. IsFlat (motion_of m)) ops.now }
    requires centrings_flat { All (λ v. (parts v).z ≡ pos 0) centrings.now }
    ensures { IfOk result (λ group. IsFlatGroup (group_listing group)) }
{
    let ops = Vec::from_slice(alloc, ops)?;
    let centrings = Vec::from_slice(alloc, centrings)?;
    let listed = Listed {
        ops,
        centrings,
        generated: false,
    };
    Group::make(alloc, listed)
}

// The frame of the lines (h k).
fn frame_of(group: &Group, h: i64, k: i64) -> Result<Frame, Fail>
    requires { IsFlatGroup (group_listing group.now) }
{
    let plane = Miller::make(h, k, 0)?;
    Ok(line_frame(group, plane))
}

#[test]
fn lines_of_p2mg_along_an_edge_are_framed_by_the_edges(rt: HostRuntime) -> Result<(), Fail> {
    let ops = [IDENTITY, TURN, MIRROR_AT_A_QUARTER, GLIDE];
    let group = group_of(rt.alloc(), &ops, &[])?;
    let along_x = frame_of(&group, 0, 1)?;
    assert_eq!(rt; along_x.a, [EDGE, NONE, NONE]);
    assert_eq!(rt; along_x.b, [NONE, NONE, OPPOSITE]);
    assert_eq!(rt; along_x.tau, [NONE, EDGE, NONE]);
    assert_eq!(rt; along_x.period, EDGE);
    let along_y = frame_of(&group, 1, 0)?;
    assert_eq!(rt; along_y.a, [NONE, EDGE, NONE]);
    assert_eq!(rt; along_y.b, [NONE, NONE, EDGE]);
    assert_eq!(rt; along_y.tau, [EDGE, NONE, NONE]);
    assert_eq!(rt; along_y.period, EDGE);
    Ok(())
}

#[test]
fn lines_of_a_centred_lattice_follow_at_half_an_edge(rt: HostRuntime) -> Result<(), Fail> {
    let group = group_of(rt.alloc(), &[IDENTITY, MIRROR], &[CENTRING])?;
    let frame = frame_of(&group, 0, 1)?;
    assert_eq!(rt; frame.a, [EDGE, NONE, NONE]);
    assert_eq!(rt; frame.tau, [HALF, HALF, NONE]);
    assert_eq!(rt; frame.period, HALF);
    // The mirror takes tau to (-1/2,1/2).
    assert!(rt; frame.c[0].num() == 0);
    assert!(rt; frame.c[1].num() == 1 && frame.c[1].den() == 2);
    assert!(rt; frame.c[2].num() == 0);
    Ok(())
}

#[test]
fn oblique_lines_have_a_tau_that_is_reduced_along_a(rt: HostRuntime) -> Result<(), Fail> {
    let group = group_of(rt.alloc(), &[IDENTITY, TURN], &[])?;
    let frame = frame_of(&group, 2, 3)?;
    assert_eq!(rt; frame.a, [Part(3 * UNIT), Part(-2 * UNIT), NONE]);
    assert_eq!(rt; frame.b, [NONE, NONE, OPPOSITE]);
    assert_eq!(rt; frame.tau, [Part(2 * UNIT), OPPOSITE, NONE]);
    assert_eq!(rt; frame.period, EDGE);
    assert!(rt; frame.c[0].num() == 2 && frame.c[0].den() == 1);
    assert!(rt; frame.c[1].num() == -1 && frame.c[1].den() == 1);
    let opposite = frame_of(&group, -2, -3)?;
    assert_eq!(rt; opposite.a, frame.a);
    assert_eq!(rt; opposite.b, [NONE, NONE, EDGE]);
    // Here -2 x - 3 y is 1 with x from 0 to below 3.
    assert_eq!(rt; opposite.tau, [EDGE, OPPOSITE, NONE]);
    Ok(())
}
