// What no clause says: the symbols, and worked cases by hand.
use super::{LayerShifts, layer};
use fractions::UNIT;
use motions::{LayerMotion, Sign};
use quotient::{Motion, Quotient, check_group, distinct, find};
use std::test::Fail;

// The symbols of International Tables, Volume E, from 1 to 80.
const SYMBOLS: [&str; 80] = [
    "p1", "p-1", "p112", "p11m", "p11a", "p112/m", "p112/a", "p211", "p2_111", "c211", "pm11",
    "pb11", "cm11", "p2/m11", "p2_1/m11", "p2/b11", "p2_1/b11", "c2/m11", "p222", "p2_122",
    "p2_12_12", "c222", "pmm2", "pma2", "pba2", "cmm2", "pm2m", "pm2_1b", "pb2_1m", "pb2b", "pm2a",
    "pm2_1n", "pb2_1a", "pb2n", "cm2m", "cm2e", "pmmm", "pmaa", "pban", "pmam", "pmma", "pman",
    "pbaa", "pbam", "pbma", "pmmn", "cmmm", "cmme", "p4", "p-4", "p4/m", "p4/n", "p422", "p42_12",
    "p4mm", "p4bm", "p-42m", "p-42_1m", "p-4m2", "p-4b2", "p4/mmm", "p4/nbm", "p4/mbm", "p4/nmm",
    "p3", "p-3", "p312", "p321", "p3m1", "p31m", "p-31m", "p-3m1", "p6", "p-6", "p6/m", "p622",
    "p6mm", "p-6m2", "p-62m", "p6/mmm",
];

// x+1/2,y,-z
const GLIDE: LayerMotion = LayerMotion {
    a: [[1, 0], [0, 1]],
    e: Sign::Minus,
    t: [UNIT, 0],
};

// -x+1/2,-y,z
const HALF_TURN: LayerMotion = LayerMotion {
    a: [[-1, 0], [0, -1]],
    e: Sign::Plus,
    t: [UNIT, 0],
};

// -x,-y,-z
const INVERSION: LayerMotion = LayerMotion {
    a: [[-1, 0], [0, -1]],
    e: Sign::Minus,
    t: [0, 0],
};

#[test]
fn the_symbols_stand_in_the_order_of_the_numbers(rt: HostRuntime) {
    let mut n = 0u8;
    for symbol in SYMBOLS {
        assert!(rt; n < 80);
        n += 1;
        let found = layer(n);
        assert!(rt; found.is_some());
        if let Some(layer_type) = found {
            assert_eq!(rt; layer_type.symbol, symbol);
            assert_eq!(rt; layer_type.number, n);
        }
    }
}

#[test]
fn there_is_no_type_outside_1_to_80(rt: HostRuntime) {
    assert!(rt; layer(0).is_none());
    assert!(rt; layer(81).is_none());
}

#[test]
fn the_operations_of_p112_a(rt: HostRuntime) {
    let found = layer(7);
    assert!(rt; found.is_some());
    if let Some(layer_type) = found {
        let [first, second, third, fourth] = layer_type.ops else {
            return;
        };
        assert!(rt; *first == LayerMotion::identity());
        assert!(rt; *second == GLIDE);
        assert!(rt; *third == HALF_TURN);
        assert!(rt; *fourth == INVERSION);
    }
}

#[test]
fn the_operations_of_each_type_are_a_group(rt: HostRuntime) {
    for n in 1u8..81 {
        let found = layer(n);
        assert!(rt; found.is_some());
        if let Some(layer_type) = found {
            let shifts = LayerShifts {
                centred: layer_type.centred,
            };
            assert!(rt; check_group(&shifts, layer_type.ops).is_ok());
        }
    }
}

// the translation by (3/4, 1/4)
const STEP: LayerMotion = LayerMotion {
    a: [[1, 0], [0, 1]],
    e: Sign::Plus,
    t: [3 * UNIT / 2, UNIT / 2],
};

// the translation by (-1/2, 3/2)
const BACKWARD: LayerMotion = LayerMotion {
    a: [[1, 0], [0, 1]],
    e: Sign::Plus,
    t: [-UNIT, 3 * UNIT],
};

// x+y,y,z
const SHEAR: LayerMotion = LayerMotion {
    a: [[1, 1], [0, 1]],
    e: Sign::Plus,
    t: [0, 0],
};

#[test]
fn a_centring_takes_half_an_edge_off_the_first_entry(rt: HostRuntime) {
    let primitive = LayerShifts { centred: false };
    let centred = LayerShifts { centred: true };
    assert!(rt; primitive.home(&STEP).t == [3 * UNIT / 2, UNIT / 2]);
    assert!(rt; centred.home(&STEP).t == [UNIT / 2, 3 * UNIT / 2]);
    assert!(rt; primitive.home(&BACKWARD).t == [UNIT, UNIT]);
    assert!(rt; centred.home(&BACKWARD).t == [0, 0]);
}

#[test]
fn half_edges_along_both_axes_are_a_shift_of_a_centred_lattice(rt: HostRuntime) {
    assert!(rt; LayerShifts { centred: true }.is_shift(&BACKWARD));
    assert!(rt; !LayerShifts { centred: false }.is_shift(&BACKWARD));
    assert!(rt; !LayerShifts { centred: true }.is_shift(&GLIDE));
    assert!(rt; !LayerShifts { centred: true }.is_shift(&STEP));
}

#[test]
fn a_shear_moves_a_centred_lattice(rt: HostRuntime) {
    assert!(rt; LayerShifts { centred: false }.keeps(&SHEAR));
    assert!(rt; !LayerShifts { centred: true }.keeps(&SHEAR));
    assert!(rt; LayerShifts { centred: true }.keeps(&GLIDE));
}

#[test]
fn one_motion_of_each_that_are_the_same(rt: HostRuntime) -> Result<(), Fail> {
    let list = [LayerMotion::identity(), GLIDE, BACKWARD];
    let kept = distinct(rt.alloc(), &LayerShifts { centred: true }, &list)?;
    assert_eq!(rt; kept.len(), 2);
    assert!(rt; find(&LayerShifts { centred: true }, &list, &BACKWARD) == Some(0));
    assert!(rt; find(&LayerShifts { centred: false }, &list, &BACKWARD) == Some(2));
    Ok(())
}
