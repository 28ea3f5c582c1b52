// Worked cases of groups from generators, by hand.
ghost use Rattle.std.specs.Prelude.{◌^◌, All};
ghost use Rattle.symmetry.specs.Sizes.{IsVectorWithin};
ghost use Rattle.motions.specs.ListedSizes.{IsSmallWithin};
ghost use Rattle.motions.specs.Views.{motion_of, parts};

use crate::generated_error::GeneratedError;
use crate::group::{Group, MAX_OPERATIONS};
use fractions::{Part, UNIT};
use motions::{Listed, Motion3};
use std::alloc::Global;
use std::process::Abort;
use std::test::Fail;

const HALF: Part = Part(UNIT / 2);

const QUARTER: Part = Part(UNIT / 4);

const NONE: Part = Part(0);

const ORIGIN: [Part; 3] = [NONE, NONE, NONE];

const IDENTITY: Motion3 = Motion3 {
    w: [[1, 0, 0], [0, 1, 0], [0, 0, 1]],
    t: ORIGIN,
};

// -x,-y,-z
const INVERSION: Motion3 = Motion3 {
    w: [[-1, 0, 0], [0, -1, 0], [0, 0, -1]],
    t: ORIGIN,
};

// -x+1/2,-y,-z
const SECOND_INVERSION: Motion3 = Motion3 {
    w: [[-1, 0, 0], [0, -1, 0], [0, 0, -1]],
    t: [HALF, NONE, NONE],
};

// -y,x,z+1/4
const SCREW: Motion3 = Motion3 {
    w: [[0, -1, 0], [1, 0, 0], [0, 0, 1]],
    t: [NONE, NONE, QUARTER],
};

// x+y,y,z
const SHEAR: Motion3 = Motion3 {
    w: [[1, 1, 0], [0, 1, 0], [0, 0, 1]],
    t: ORIGIN,
};

// x,y,0
const PROJECTION: Motion3 = Motion3 {
    w: [[1, 0, 0], [0, 1, 0], [0, 0, 0]],
    t: ORIGIN,
};

// x+1/24,y,z and x,y+1/24,z
const FINE: [Motion3; 2] = [
    Motion3 {
        w: [[1, 0, 0], [0, 1, 0], [0, 0, 1]],
        t: [Part(UNIT / 24), NONE, NONE],
    },
    Motion3 {
        w: [[1, 0, 0], [0, 1, 0], [0, 0, 1]],
        t: [NONE, Part(UNIT / 24), NONE],
    },
];

// -y,x,z+1/4; z,x,y; -x,-y,-z: a group of 48 matrices
const CUBIC: [Motion3; 3] = [
    Motion3 {
        w: [[0, -1, 0], [1, 0, 0], [0, 0, 1]],
        t: [NONE, NONE, QUARTER],
    },
    Motion3 {
        w: [[0, 0, 1], [1, 0, 0], [0, 1, 0]],
        t: ORIGIN,
    },
    Motion3 {
        w: [[-1, 0, 0], [0, -1, 0], [0, 0, -1]],
        t: ORIGIN,
    },
];

fn generated(
    alloc: Global,
    ops: &[Motion3],
    centrings: &[[Part; 3]],
) -> Result<Group, GeneratedError>
    requires ops { All (λ m. IsSmallWithin 9 (motion_of m)) ops.now }
    requires centrings { All (λ v. IsVectorWithin (2 ^ 40) (parts v)) centrings.now }
{
    let ops = Vec::from_slice(alloc, ops)?;
    let centrings = Vec::from_slice(alloc, centrings)?;
    Group::generated(
        alloc,
        Listed {
            ops,
            centrings,
            generated: true,
        },
    )
}

// How many operations the group has, and how many residues its lattice has.
fn order(made: Result<Group, GeneratedError>) -> Result<(usize, usize), GeneratedError> {
    let group = made?;
    Ok((group.ops().len(), group.lattice().residues().len()))
}

#[test]
fn nothing_generates_the_translations(rt: HostRuntime) -> Result<(), Fail> {
    assert_eq!(rt; order(generated(rt.alloc(), &[], &[])), Ok((1, 1)));
    Ok(())
}

#[test]
fn the_identity_comes_first(rt: HostRuntime) -> Result<(), Fail> {
    let group = generated(rt.alloc(), &[INVERSION], &[])?;
    assert_eq!(rt; group.ops().len(), 2);
    assert!(rt; group.ops()[0] == IDENTITY);
    assert!(rt; group.ops()[1] == INVERSION);
    Ok(())
}

#[test]
fn greater_matrices_come_first(rt: HostRuntime) -> Result<(), Fail> {
    let group = generated(rt.alloc(), &[SCREW], &[])?;
    assert_eq!(rt; group.ops().len(), 4);
    assert_eq!(rt; group.ops()[1].w, [[0, 1, 0], [-1, 0, 0], [0, 0, 1]]);
    assert_eq!(rt; group.ops()[1].t, [NONE, NONE, Part(3 * UNIT / 4)]);
    assert!(rt; group.ops()[2] == SCREW);
    assert_eq!(rt; group.ops()[3].w, [[-1, 0, 0], [0, -1, 0], [0, 0, 1]]);
    assert_eq!(rt; group.ops()[3].t, [NONE, NONE, HALF]);
    Ok(())
}

#[test]
fn two_inversions_make_a_centring(rt: HostRuntime) -> Result<(), Fail> {
    let group = generated(rt.alloc(), &[INVERSION, SECOND_INVERSION], &[])?;
    assert_eq!(rt; group.ops().len(), 2);
    assert_eq!(rt;
        group.lattice().residues(),
        [ORIGIN, [HALF, NONE, NONE]].as_slice()
    );
    Ok(())
}

#[test]
fn a_turn_takes_a_centring_into_another(rt: HostRuntime) -> Result<(), Fail> {
    assert_eq!(rt;
        order(generated(rt.alloc(), &[SCREW], &[[HALF, NONE, NONE]])),
        Ok((4, 4))
    );
    Ok(())
}

#[test]
fn a_cube_has_48_matrices(rt: HostRuntime) -> Result<(), Fail> {
    assert_eq!(rt; order(generated(rt.alloc(), &CUBIC, &[])), Ok((48, 32)));
    Ok(())
}

#[test]
fn a_shear_makes_too_large_matrices(rt: HostRuntime) -> Result<(), Fail> {
    assert_eq!(rt;
        order(generated(rt.alloc(), &[SHEAR], &[])),
        Err(GeneratedError::TooLarge)
    );
    Ok(())
}

#[test]
fn a_projection_has_no_inverse(rt: HostRuntime) -> Result<(), Fail> {
    assert_eq!(rt;
        order(generated(rt.alloc(), &[IDENTITY, PROJECTION], &[])),
        Err(GeneratedError::NoInverse(2))
    );
    Ok(())
}

#[test]
fn parts_of_two_edges_make_it_too_fine(rt: HostRuntime) -> Result<(), Fail> {
    assert_eq!(rt;
        order(generated(rt.alloc(), &FINE, &[])),
        Err(GeneratedError::TooFine)
    );
    Ok(())
}

#[test]
fn generators_are_counted_as_listed(rt: HostRuntime) -> Result<(), Fail> {
    let most = vec![in rt.alloc(); INVERSION; MAX_OPERATIONS]?;
    assert_eq!(rt; order(generated(rt.alloc(), &most, &[])), Ok((2, 1)));
    let more = vec![in rt.alloc(); INVERSION; MAX_OPERATIONS + 1]?;
    assert_eq!(rt;
        order(generated(rt.alloc(), &more, &[])),
        Err(GeneratedError::TooMany(193))
    );
    Ok(())
}
