// Worked cases, by hand.
ghost use Rattle.std.specs.Prelude.{◌^◌, All, unsigned_abs};
ghost use Rattle.symmetry.specs.Sizes.{IsVectorWithin};
ghost use Rattle.motions.specs.ListedSizes.{IsSmallWithin};
ghost use Rattle.motions.specs.Views.{motion_of, parts};
ghost use Rattle.closure.specs.Operations.{HasSmallEntries};

use crate::group::{Group, MAX_OPERATIONS};
use crate::group_error::GroupError;
use crate::lattice::Lattice;
use crate::lattice_fault::LatticeFault;
use fractions::{Part, UNIT};
use motions::{Listed, Motion3};
use quotient::{GroupFault, Quotient};
use std::alloc::Global;
use std::process::Abort;
use std::test::Fail;

const HALF: Part = Part(UNIT / 2);

const QUARTER: Part = Part(UNIT / 4);

const EIGHTH: Part = Part(UNIT / 8);

const NONE: Part = Part(0);

const ORIGIN: [Part; 3] = [NONE, NONE, NONE];

// the three quarters of the edges, and an eighth of one of them
const QUARTERS: [[Part; 3]; 3] = [
    [QUARTER, NONE, NONE],
    [NONE, QUARTER, NONE],
    [NONE, NONE, QUARTER],
];

const WITH_AN_EIGHTH: [[Part; 3]; 4] = [
    [QUARTER, NONE, NONE],
    [NONE, QUARTER, NONE],
    [NONE, NONE, QUARTER],
    [EIGHTH, NONE, NONE],
];

// x,y,z
const IDENTITY: Motion3 = Motion3 {
    w: [[1, 0, 0], [0, 1, 0], [0, 0, 1]],
    t: ORIGIN,
};

// x+1/2,y+1/2,z
const CENTRING: Motion3 = Motion3 {
    w: [[1, 0, 0], [0, 1, 0], [0, 0, 1]],
    t: [HALF, HALF, NONE],
};

// -x,y+1/2,-z+1/2
const SCREW: Motion3 = Motion3 {
    w: [[-1, 0, 0], [0, 1, 0], [0, 0, -1]],
    t: [NONE, HALF, HALF],
};

// -x,-y,-z
const INVERSION: Motion3 = Motion3 {
    w: [[-1, 0, 0], [0, -1, 0], [0, 0, -1]],
    t: ORIGIN,
};

// an inversion, and the one that differs from it by the centring and whole edges
const FAR_INVERSION: Motion3 = Motion3 {
    w: [[-1, 0, 0], [0, -1, 0], [0, 0, -1]],
    t: [Part(UNIT / 2 + 1), Part(-UNIT / 2), Part(UNIT)],
};

const NEAR_INVERSION: Motion3 = Motion3 {
    w: [[-1, 0, 0], [0, -1, 0], [0, 0, -1]],
    t: [Part(1), NONE, NONE],
};

// x,-y+1/2,z+1/2
const GLIDE: Motion3 = Motion3 {
    w: [[1, 0, 0], [0, -1, 0], [0, 0, 1]],
    t: [NONE, HALF, HALF],
};

// -y,x,z
const QUARTER_TURN: Motion3 = Motion3 {
    w: [[0, -1, 0], [1, 0, 0], [0, 0, 1]],
    t: ORIGIN,
};

// x,y,0
const PROJECTION: Motion3 = Motion3 {
    w: [[1, 0, 0], [0, 1, 0], [0, 0, 0]],
    t: ORIGIN,
};

fn group_of(alloc: Global, ops: &[Motion3], centrings: &[[Part; 3]]) -> Result<Group, GroupError>
    requires ops { All (λ m. HasSmallEntries (motion_of m)) ops.now }
    requires centrings { All (λ v. IsVectorWithin (2 ^ 40) (parts v)) centrings.now }
{
    let ops = Vec::from_slice(alloc, ops)?;
    let centrings = Vec::from_slice(alloc, centrings)?;
    Group::make(
        alloc,
        Listed {
            ops,
            centrings,
            generated: false,
        },
    )
}

// How many operations the group has, modulo its lattice.
fn order(made: Result<Group, GroupError>) -> Result<usize, GroupError> {
    Ok(made?.ops().len())
}

// How many residues the lattice has.
fn index(made: Result<Lattice, LatticeFault>) -> Result<usize, LatticeFault> {
    Ok(made?.residues().len())
}

#[test]
fn quarters_of_the_edges_make_the_largest_lattice(rt: HostRuntime) -> Result<(), Fail> {
    assert_eq!(rt; index(Lattice::make(rt.alloc(), &QUARTERS)), Ok(64));
    Ok(())
}

#[test]
fn an_eighth_of_an_edge_makes_it_too_fine(rt: HostRuntime) -> Result<(), Fail> {
    assert_eq!(rt;
        index(Lattice::make(rt.alloc(), &WITH_AN_EIGHTH)),
        Err(LatticeFault::TooFine)
    );
    Ok(())
}

#[test]
fn a_centred_face_has_two_residues(rt: HostRuntime) -> Result<(), Fail> {
    let lattice = Lattice::make(rt.alloc(), &[CENTRING.t])?;
    assert_eq!(rt; lattice.residues(), [ORIGIN, [HALF, HALF, NONE]].as_slice());
    Ok(())
}

#[test]
fn home_is_the_first_translation(rt: HostRuntime) -> Result<(), Fail> {
    let lattice = Lattice::make(rt.alloc(), &[CENTRING.t])?;
    assert!(rt; lattice.home(&FAR_INVERSION) == NEAR_INVERSION);
    Ok(())
}

#[test]
fn p2_1_over_c_is_a_group(rt: HostRuntime) -> Result<(), Fail> {
    assert_eq!(rt;
        order(group_of(rt.alloc(), &[IDENTITY, SCREW, INVERSION, GLIDE], &[])),
        Ok(4)
    );
    Ok(())
}

#[test]
fn a_listed_translation_is_a_centring(rt: HostRuntime) -> Result<(), Fail> {
    let group = group_of(rt.alloc(), &[IDENTITY, INVERSION, CENTRING], &[])?;
    assert!(rt; group.has([HALF, HALF, Part(-UNIT)]));
    assert!(rt; !group.has([HALF, NONE, NONE]));
    assert_eq!(rt; group.ops().len(), 2);
    assert_eq!(rt; group.lattice().residues().len(), 2);
    Ok(())
}

#[test]
fn a_list_without_the_identity_is_no_group(rt: HostRuntime) -> Result<(), Fail> {
    assert_eq!(rt;
        order(group_of(rt.alloc(), &[INVERSION], &[])),
        Err(GroupError::Fault(GroupFault::NoIdentity))
    );
    Ok(())
}

#[test]
fn a_quarter_turn_moves_a_halved_edge(rt: HostRuntime) -> Result<(), Fail> {
    let made = group_of(rt.alloc(), &[IDENTITY, QUARTER_TURN], &[[HALF, NONE, NONE]]);
    assert_eq!(rt;
        order(made),
        Err(GroupError::Fault(GroupFault::ShiftMoved(2)))
    );
    Ok(())
}

#[test]
fn a_quarter_turn_twice_is_not_listed(rt: HostRuntime) -> Result<(), Fail> {
    assert_eq!(rt;
        order(group_of(rt.alloc(), &[IDENTITY, QUARTER_TURN], &[])),
        Err(GroupError::Fault(GroupFault::NotClosed(2, 2)))
    );
    Ok(())
}

#[test]
fn a_projection_has_no_inverse(rt: HostRuntime) -> Result<(), Fail> {
    assert_eq!(rt;
        order(group_of(rt.alloc(), &[IDENTITY, PROJECTION], &[])),
        Err(GroupError::Fault(GroupFault::NoInverse(2)))
    );
    Ok(())
}

#[test]
fn operations_are_counted_as_listed(rt: HostRuntime) -> Result<(), Fail> {
    let most = vec![in rt.alloc(); IDENTITY; MAX_OPERATIONS]?;
    assert_eq!(rt; order(group_of(rt.alloc(), &most, &[])), Ok(1));
    let more = vec![in rt.alloc(); IDENTITY; MAX_OPERATIONS + 1]?;
    assert_eq!(rt;
        order(group_of(rt.alloc(), &more, &[])),
        Err(GroupError::TooMany(193))
    );
    Ok(())
}
