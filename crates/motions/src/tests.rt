// Worked cases, by hand.
use crate::layer::LayerMotion;
use crate::miller::{Miller, PlaneFault};
use crate::motion::{Motion3, Sign};
use crate::rows::{shift, side};
use fractions::{Part, UNIT};
use quotient::Motion;
use std::test::Fail;

const HALF: Part = Part(UNIT / 2);

const THIRD: Part = Part(UNIT / 3);

const NONE: Part = Part(0);

// -x,y+1/2,-z+1/2
const SCREW: Motion3 = Motion3 {
    w: [[-1, 0, 0], [0, 1, 0], [0, 0, -1]],
    t: [NONE, HALF, HALF],
};

// x,-y+1/2,z+1/2
const GLIDE: Motion3 = Motion3 {
    w: [[1, 0, 0], [0, -1, 0], [0, 0, 1]],
    t: [NONE, HALF, HALF],
};

// -y,x-y,z+1/3
const THREEFOLD: Motion3 = Motion3 {
    w: [[0, -1, 0], [1, -1, 0], [0, 0, 1]],
    t: [NONE, NONE, THIRD],
};

#[test]
fn the_matrix_of_a_threefold_screw_takes_a_vector_to_another(rt: HostRuntime) {
    let image = [NONE, HALF, THIRD];
    assert_eq!(rt; THREEFOLD.image(&[HALF, NONE, THIRD]), image);
    assert!(rt; !THREEFOLD.is_translation());
}

fn twice<M: Motion>(motion: &M) -> M
    requires { M.IsSmall (M.meaning motion.now) }
{
    motion.then(motion)
}

#[test]
fn a_screw_and_then_a_glide_is_an_inversion(rt: HostRuntime) {
    let inversion = Motion3 {
        w: [[-1, 0, 0], [0, -1, 0], [0, 0, -1]],
        t: [NONE, NONE, Part(UNIT)],
    };
    assert!(rt; SCREW.then(&GLIDE) == inversion);
}

#[test]
fn a_screw_twice_is_a_translation(rt: HostRuntime) {
    let translation = Motion3 {
        w: [[1, 0, 0], [0, 1, 0], [0, 0, 1]],
        t: [NONE, Part(UNIT), NONE],
    };
    assert!(rt; twice(&SCREW) == translation);
}

#[test]
fn a_threefold_screw_is_undone(rt: HostRuntime) {
    let undone = Motion3 {
        w: [[-1, 1, 0], [-1, 0, 0], [0, 0, 1]],
        t: [NONE, NONE, Part(-UNIT / 3)],
    };
    assert!(rt; THREEFOLD.back() == Some(undone));
}

#[test]
fn a_glide_is_undone_by_the_opposite_glide(rt: HostRuntime) {
    let undone = Motion3 {
        w: [[1, 0, 0], [0, -1, 0], [0, 0, 1]],
        t: [NONE, HALF, Part(-UNIT / 2)],
    };
    assert!(rt; GLIDE.back() == Some(undone));
}

#[test]
fn a_dilation_is_not_undone(rt: HostRuntime) {
    let dilation = Motion3 {
        w: [[2, 0, 0], [0, 1, 0], [0, 0, 1]],
        t: [NONE, NONE, NONE],
    };
    assert!(rt; dilation.back() == None);
}

// -y,x+1/2,-z
const QUARTER_TURN: LayerMotion = LayerMotion {
    a: [[0, -1], [1, 0]],
    e: Sign::Minus,
    t: [0, UNIT],
};

#[test]
fn a_quarter_turn_of_a_layer_twice_is_a_half_turn(rt: HostRuntime) {
    let half_turn = LayerMotion {
        a: [[-1, 0], [0, -1]],
        e: Sign::Plus,
        t: [-UNIT, UNIT],
    };
    assert!(rt; twice(&QUARTER_TURN) == half_turn);
}

#[test]
fn a_quarter_turn_of_a_layer_is_undone_by_the_other(rt: HostRuntime) {
    let undone = LayerMotion {
        a: [[0, 1], [-1, 0]],
        e: Sign::Minus,
        t: [-UNIT, 0],
    };
    assert!(rt; QUARTER_TURN.back() == Some(undone));
}

#[test]
fn a_dilation_of_a_layer_is_not_undone(rt: HostRuntime) {
    let dilation = LayerMotion {
        a: [[1, 0], [0, 2]],
        e: Sign::Plus,
        t: [0, 0],
    };
    assert!(rt; dilation.back() == None);
}

#[test]
fn the_block_form_of_a_quarter_turn(rt: HostRuntime) {
    let block = Motion3 {
        w: [[0, -1, 0], [1, 0, 0], [0, 0, -1]],
        t: [NONE, HALF, NONE],
    };
    assert!(rt; QUARTER_TURN.triple() == Some(block));
}

#[test]
fn an_odd_number_of_half_parts_has_no_block_form(rt: HostRuntime) {
    let odd = LayerMotion {
        a: [[1, 0], [0, 1]],
        e: Sign::Plus,
        t: [2, -3],
    };
    assert!(rt; odd.triple() == None);
}

#[test]
fn indices_are_in_range_not_all_zero_and_coprime(rt: HostRuntime) {
    assert!(rt; Miller::make(256, 0, 0) == Err(PlaneFault::OutOfRange));
    assert!(rt; Miller::make(0, 0, 0) == Err(PlaneFault::AllZero));
    assert!(rt; Miller::make(6, -4, 0) == Err(PlaneFault::NotCoprime(2)));
    assert!(rt; Miller::make(-255, 254, 0).is_ok());
}

#[test]
fn a_screw_along_the_normal_keeps_the_side_and_shifts_by_half(rt: HostRuntime) -> Result<(), Fail> {
    let plane = Miller::make(0, 1, 0)?;
    assert_eq!(rt; side(&SCREW, &plane), Some(Sign::Plus));
    assert_eq!(rt; side(&GLIDE, &plane), Some(Sign::Minus));
    assert_eq!(rt; side(&THREEFOLD, &plane), None);
    assert_eq!(rt; shift(&SCREW, &plane), UNIT / 2);
    Ok(())
}
