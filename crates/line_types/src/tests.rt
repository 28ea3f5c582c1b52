// The symbols of the types, in the order of their numbers, and worked cases.
use crate::{FriezeShifts, RodShifts, frieze, rod};
use fractions::UNIT;
use motions::{FriezeMotion, RodMotion, Sign};
use quotient::{Quotient, check_group, find};

// International Tables, Volume E, with screw axes written by an underscore.
const ROD_SYMBOLS: [&str; 75] = [
    "p1", "p-1", "p211", "pm11", "pc11", "p2/m11", "p2/c11", "p112", "p112_1", "p11m", "p112/m",
    "p112_1/m", "p222", "p222_1", "pmm2", "pcc2", "pmc2_1", "p2mm", "p2cm", "pmmm", "pccm", "pmcm",
    "p4", "p4_1", "p4_2", "p4_3", "p-4", "p4/m", "p4_2/m", "p422", "p4_122", "p4_222", "p4_322",
    "p4mm", "p4_2cm", "p4cc", "p-42m", "p-42c", "p4/mmm", "p4/mcc", "p4_2/mmc", "p3", "p3_1",
    "p3_2", "p-3", "p312", "p3_112", "p3_212", "p3m1", "p3c1", "p-31m", "p-31c", "p6", "p6_1",
    "p6_2", "p6_3", "p6_4", "p6_5", "p-6", "p6/m", "p6_3/m", "p622", "p6_122", "p6_222", "p6_322",
    "p6_422", "p6_522", "p6mm", "p6cc", "p6_3mc", "p-6m2", "p-6c2", "p6/mmm", "p6/mcc", "p6_3/mmc",
];

const FRIEZE_SYMBOLS: [&str; 7] = ["p1", "p211", "p1m1", "p11m", "p11g", "p2mm", "p2mg"];

#[test]
fn each_rod_type_has_its_number_and_symbol(rt: HostRuntime) {
    for n in 1..=75 {
        let rod_type = rod(n).unwrap();
        assert_eq!(rt; rod_type.number, n);
        assert_eq!(rt; rod_type.symbol, ROD_SYMBOLS[usize::from(n) - 1]);
    }
    assert!(rt; rod(0).is_none() && rod(76).is_none());
}

#[test]
fn each_frieze_type_has_its_number_and_symbol(rt: HostRuntime) {
    for n in 1..=7 {
        let frieze_type = frieze(n).unwrap();
        assert_eq!(rt; frieze_type.number, n);
        assert_eq!(rt; frieze_type.symbol, FRIEZE_SYMBOLS[usize::from(n) - 1]);
    }
    assert!(rt; frieze(0).is_none() && frieze(8).is_none());
}

// -y,x,z+1/4 done three times
const THIRD_POWER: RodMotion = RodMotion {
    a: [[0, 1], [-1, 0]],
    e: Sign::Plus,
    t: UNIT / 4 * 3,
};

#[test]
fn a_fourfold_screw_is_in_its_type_with_its_powers(rt: HostRuntime) {
    let p4_1 = rod(24).unwrap();
    assert_eq!(rt; p4_1.ops.len(), 4);
    assert_eq!(rt; find(&RodShifts, p4_1.ops, &THIRD_POWER), Some(1));
}

#[test]
fn a_glide_twice_is_a_lattice_translation(rt: HostRuntime) {
    let p11g = frieze(5).unwrap();
    let glide = FriezeMotion {
        f: Sign::Plus,
        e: Sign::Minus,
        t: UNIT / 2,
    };
    let twice = FriezeMotion {
        f: Sign::Plus,
        e: Sign::Plus,
        t: UNIT,
    };
    assert_eq!(rt; find(&FriezeShifts, p11g.ops, &glide), Some(1));
    assert!(rt; FriezeShifts.is_shift(&twice));
    assert!(rt; !FriezeShifts.is_shift(&glide));
}

#[test]
fn a_translation_comes_home_from_below(rt: HostRuntime) {
    let below = RodMotion {
        t: -UNIT / 4,
        ..THIRD_POWER
    };
    assert!(rt; RodShifts.home(&below) == THIRD_POWER);
    assert!(rt; !RodShifts.is_shift(&below));
    assert!(rt; RodShifts.keeps(&below));
}

#[test]
fn the_operations_of_each_type_are_a_group(rt: HostRuntime) {
    for n in 1..=75 {
        assert_eq!(rt; check_group(&RodShifts, rod(n).unwrap().ops), Ok(()));
    }
    for n in 1..=7 {
        assert_eq!(rt; check_group(&FriezeShifts, frieze(n).unwrap().ops), Ok(()));
    }
}
