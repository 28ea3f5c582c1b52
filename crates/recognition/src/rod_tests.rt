// Sections of known rods.

use crate::FoundRod;
use crate::rods::rod_type;
use fractions::UNIT;
use motions::{RodMotion, Sign};
use std::alloc::AllocError;

const ONE: [[i64; 2]; 2] = [[1, 0], [0, 1]];

const QUARTER: [[i64; 2]; 2] = [[0, -1], [1, 0]];

const HALF: [[i64; 2]; 2] = [[-1, 0], [0, -1]];

const BACK: [[i64; 2]; 2] = [[0, 1], [-1, 0]];

const IDENTITY: RodMotion = RodMotion {
    a: ONE,
    e: Sign::Plus,
    t: 0,
};

// The screws by a quarter about the axis, right-handed.
const RIGHT_HANDED: [RodMotion; 4] = [
    IDENTITY,
    RodMotion {
        a: HALF,
        e: Sign::Plus,
        t: UNIT / 2,
    },
    RodMotion {
        a: QUARTER,
        e: Sign::Plus,
        t: UNIT / 4,
    },
    RodMotion {
        a: BACK,
        e: Sign::Plus,
        t: UNIT / 4 * 3,
    },
];

// The same left-handed.
const LEFT_HANDED: [RodMotion; 4] = [
    IDENTITY,
    RodMotion {
        a: HALF,
        e: Sign::Plus,
        t: UNIT / 2,
    },
    RodMotion {
        a: QUARTER,
        e: Sign::Plus,
        t: UNIT / 4 * 3,
    },
    RodMotion {
        a: BACK,
        e: Sign::Plus,
        t: UNIT / 4,
    },
];

// The inversion, from a point an eighth of the axis above a centre.
const INVERSION: [RodMotion; 2] = [
    IDENTITY,
    RodMotion {
        a: HALF,
        e: Sign::Minus,
        t: -UNIT / 4,
    },
];

// A half turn across the axis, in a basis far from its own.
const SKEWED: [RodMotion; 2] = [
    IDENTITY,
    RodMotion {
        a: [[1, 10], [0, -1]],
        e: Sign::Minus,
        t: 0,
    },
];

// A half turn across the axis, between two vectors that it swaps.
const SWAP: [RodMotion; 2] = [
    IDENTITY,
    RodMotion {
        a: [[0, 1], [1, 0]],
        e: Sign::Minus,
        t: 0,
    },
];

// Whether this is the change that was found.
fn is_change(
    found: Result<Option<FoundRod>, AllocError>,
    number: u8,
    p: [[i64; 2]; 2],
    z: u32,
) -> bool {
    match found {
        Ok(Some(f)) => f.number == number && f.p == p && f.z == z,
        _ => false,
    }
}

#[test]
fn a_left_handed_change_is_no_change(rt: HostRuntime) {
    assert!(rt; is_change(rod_type(rt.alloc(), &RIGHT_HANDED), 24, ONE, 0));
    assert!(rt; is_change(rod_type(rt.alloc(), &LEFT_HANDED), 26, ONE, 0));
}

#[test]
fn an_inversion_has_its_centre_as_the_origin(rt: HostRuntime) {
    assert!(rt; is_change(rod_type(rt.alloc(), &INVERSION), 2, ONE, 36));
}

#[test]
fn a_skewed_section_has_no_type(rt: HostRuntime) {
    assert!(rt; rod_type(rt.alloc(), &SKEWED) == Ok(None));
}

#[test]
fn a_change_may_have_a_greater_cross_number(rt: HostRuntime) {
    assert!(rt; is_change(rod_type(rt.alloc(), &SWAP), 3, [[1, 1], [1, -1]], 0));
}
