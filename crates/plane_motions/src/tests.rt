// Worked cases, by hand.
use crate::{Motion2, flat};
use fractions::{Part, UNIT};
use motions::Motion3;
use quotient::Motion;

const NONE: Part = Part(0);

const HALF: Part = Part(UNIT / 2);

// x+1/2,-y
const GLIDE: Motion2 = Motion2 {
    w: [[1, 0], [0, -1]],
    t: [HALF, NONE],
};

// -y,x
const QUARTER_TURN: Motion2 = Motion2 {
    w: [[0, -1], [1, 0]],
    t: [NONE, NONE],
};

// x+1/2,-y,z
const GLIDE_IN_SPACE: Motion3 = Motion3 {
    w: [[1, 0, 0], [0, -1, 0], [0, 0, 1]],
    t: [HALF, NONE, NONE],
};

fn twice<M: Motion>(motion: &M) -> M
    requires { M.IsSmall (M.meaning motion.now) }
{
    motion.then(motion)
}

#[test]
fn a_glide_and_then_a_quarter_turn_is_a_glide_along_a_diagonal(rt: HostRuntime) {
    // y,x+1/2
    let diagonal = Motion2 {
        w: [[0, 1], [1, 0]],
        t: [NONE, HALF],
    };
    assert!(rt; GLIDE.then(&QUARTER_TURN) == diagonal);
    assert!(rt; GLIDE.then(&Motion2::identity()) == GLIDE);
    // y-1/2,x
    let undone = Motion2 {
        w: [[0, 1], [1, 0]],
        t: [Part(-UNIT / 2), NONE],
    };
    assert!(rt; diagonal.back() == Some(undone));
}

#[test]
fn a_glide_twice_is_a_translation(rt: HostRuntime) {
    let edge = Motion2 {
        w: [[1, 0], [0, 1]],
        t: [Part(UNIT), NONE],
    };
    assert!(rt; twice(&GLIDE) == edge);
}

#[test]
fn a_motion_without_a_whole_inverse_has_none(rt: HostRuntime) {
    let stretch = Motion2 {
        w: [[2, 0], [0, 1]],
        t: [NONE, NONE],
    };
    assert!(rt; stretch.back().is_none());
}

#[test]
fn a_glide_in_space_is_flat(rt: HostRuntime) {
    assert!(rt; flat(&GLIDE_IN_SPACE) == Some(GLIDE));
}

#[test]
fn a_motion_that_moves_heights_is_not_flat(rt: HostRuntime) {
    let raised = Motion3 {
        t: [HALF, NONE, HALF],
        ..GLIDE_IN_SPACE
    };
    // x+1/2,-y,-z
    let turned = Motion3 {
        w: [[1, 0, 0], [0, -1, 0], [0, 0, -1]],
        ..GLIDE_IN_SPACE
    };
    // x+z+1/2,-y,z
    let skewed = Motion3 {
        w: [[1, 0, 1], [0, -1, 0], [0, 0, 1]],
        ..GLIDE_IN_SPACE
    };
    assert!(rt; flat(&raised).is_none());
    assert!(rt; flat(&turned).is_none());
    assert!(rt; flat(&skewed).is_none());
}
