// The orthorhombic rod types.
//
// Numbers and symbols are taken after International Tables, Volume E. The generators, and with them the origins, are
// this project's choice (`specs/RodRows.antt`).
use crate::motion::rod_motion;
use crate::rods::RodType;
use fractions::UNIT;
use motions::{RodMotion, Sign};

pub(crate) const TYPE_13: RodType = RodType {
    number: 13,
    symbol: "p222",
    ops: &[
        rod_motion!([1, 0], [0, 1], Plus, 0),
        rod_motion!([1, 0], [0, -1], Minus, 0),
        rod_motion!([-1, 0], [0, 1], Minus, 0),
        rod_motion!([-1, 0], [0, -1], Plus, 0),
    ],
};

pub(crate) const TYPE_14: RodType = RodType {
    number: 14,
    symbol: "p222_1",
    ops: &[
        rod_motion!([1, 0], [0, 1], Plus, 0),
        rod_motion!([1, 0], [0, -1], Minus, 0),
        rod_motion!([-1, 0], [0, 1], Minus, UNIT / 2),
        rod_motion!([-1, 0], [0, -1], Plus, UNIT / 2),
    ],
};

pub(crate) const TYPE_15: RodType = RodType {
    number: 15,
    symbol: "pmm2",
    ops: &[
        rod_motion!([1, 0], [0, 1], Plus, 0),
        rod_motion!([1, 0], [0, -1], Plus, 0),
        rod_motion!([-1, 0], [0, 1], Plus, 0),
        rod_motion!([-1, 0], [0, -1], Plus, 0),
    ],
};

pub(crate) const TYPE_16: RodType = RodType {
    number: 16,
    symbol: "pcc2",
    ops: &[
        rod_motion!([1, 0], [0, 1], Plus, 0),
        rod_motion!([1, 0], [0, -1], Plus, UNIT / 2),
        rod_motion!([-1, 0], [0, 1], Plus, UNIT / 2),
        rod_motion!([-1, 0], [0, -1], Plus, 0),
    ],
};

pub(crate) const TYPE_17: RodType = RodType {
    number: 17,
    symbol: "pmc2_1",
    ops: &[
        rod_motion!([1, 0], [0, 1], Plus, 0),
        rod_motion!([1, 0], [0, -1], Plus, UNIT / 2),
        rod_motion!([-1, 0], [0, 1], Plus, 0),
        rod_motion!([-1, 0], [0, -1], Plus, UNIT / 2),
    ],
};

pub(crate) const TYPE_18: RodType = RodType {
    number: 18,
    symbol: "p2mm",
    ops: &[
        rod_motion!([1, 0], [0, 1], Plus, 0),
        rod_motion!([1, 0], [0, 1], Minus, 0),
        rod_motion!([1, 0], [0, -1], Plus, 0),
        rod_motion!([1, 0], [0, -1], Minus, 0),
    ],
};

pub(crate) const TYPE_19: RodType = RodType {
    number: 19,
    symbol: "p2cm",
    ops: &[
        rod_motion!([1, 0], [0, 1], Plus, 0),
        rod_motion!([1, 0], [0, 1], Minus, 0),
        rod_motion!([1, 0], [0, -1], Plus, UNIT / 2),
        rod_motion!([1, 0], [0, -1], Minus, UNIT / 2),
    ],
};

pub(crate) const TYPE_20: RodType = RodType {
    number: 20,
    symbol: "pmmm",
    ops: &[
        rod_motion!([1, 0], [0, 1], Plus, 0),
        rod_motion!([1, 0], [0, 1], Minus, 0),
        rod_motion!([1, 0], [0, -1], Plus, 0),
        rod_motion!([1, 0], [0, -1], Minus, 0),
        rod_motion!([-1, 0], [0, 1], Plus, 0),
        rod_motion!([-1, 0], [0, 1], Minus, 0),
        rod_motion!([-1, 0], [0, -1], Plus, 0),
        rod_motion!([-1, 0], [0, -1], Minus, 0),
    ],
};

pub(crate) const TYPE_21: RodType = RodType {
    number: 21,
    symbol: "pccm",
    ops: &[
        rod_motion!([1, 0], [0, 1], Plus, 0),
        rod_motion!([1, 0], [0, 1], Minus, 0),
        rod_motion!([1, 0], [0, -1], Plus, UNIT / 2),
        rod_motion!([1, 0], [0, -1], Minus, UNIT / 2),
        rod_motion!([-1, 0], [0, 1], Plus, UNIT / 2),
        rod_motion!([-1, 0], [0, 1], Minus, UNIT / 2),
        rod_motion!([-1, 0], [0, -1], Plus, 0),
        rod_motion!([-1, 0], [0, -1], Minus, 0),
    ],
};

pub(crate) const TYPE_22: RodType = RodType {
    number: 22,
    symbol: "pmcm",
    ops: &[
        rod_motion!([1, 0], [0, 1], Plus, 0),
        rod_motion!([1, 0], [0, 1], Minus, 0),
        rod_motion!([1, 0], [0, -1], Plus, UNIT / 2),
        rod_motion!([1, 0], [0, -1], Minus, UNIT / 2),
        rod_motion!([-1, 0], [0, 1], Plus, 0),
        rod_motion!([-1, 0], [0, 1], Minus, 0),
        rod_motion!([-1, 0], [0, -1], Plus, UNIT / 2),
        rod_motion!([-1, 0], [0, -1], Minus, UNIT / 2),
    ],
};
