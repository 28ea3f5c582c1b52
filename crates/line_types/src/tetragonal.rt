// The tetragonal rod types.
//
// Numbers and symbols are taken after International Tables, Volume E. The generators, and with them the origins, are
// this project's choice (`specs/RodRows.antt`).
use crate::motion::rod_motion;
use crate::rods::RodType;
use fractions::UNIT;
use motions::{RodMotion, Sign};

pub(crate) const TYPE_23: RodType = RodType {
    number: 23,
    symbol: "p4",
    ops: &[
        rod_motion!([1, 0], [0, 1], Plus, 0),
        rod_motion!([0, 1], [-1, 0], Plus, 0),
        rod_motion!([0, -1], [1, 0], Plus, 0),
        rod_motion!([-1, 0], [0, -1], Plus, 0),
    ],
};

pub(crate) const TYPE_24: RodType = RodType {
    number: 24,
    symbol: "p4_1",
    ops: &[
        rod_motion!([1, 0], [0, 1], Plus, 0),
        rod_motion!([0, 1], [-1, 0], Plus, UNIT / 4 * 3),
        rod_motion!([0, -1], [1, 0], Plus, UNIT / 4),
        rod_motion!([-1, 0], [0, -1], Plus, UNIT / 2),
    ],
};

pub(crate) const TYPE_25: RodType = RodType {
    number: 25,
    symbol: "p4_2",
    ops: &[
        rod_motion!([1, 0], [0, 1], Plus, 0),
        rod_motion!([0, 1], [-1, 0], Plus, UNIT / 2),
        rod_motion!([0, -1], [1, 0], Plus, UNIT / 2),
        rod_motion!([-1, 0], [0, -1], Plus, 0),
    ],
};

pub(crate) const TYPE_26: RodType = RodType {
    number: 26,
    symbol: "p4_3",
    ops: &[
        rod_motion!([1, 0], [0, 1], Plus, 0),
        rod_motion!([0, 1], [-1, 0], Plus, UNIT / 4),
        rod_motion!([0, -1], [1, 0], Plus, UNIT / 4 * 3),
        rod_motion!([-1, 0], [0, -1], Plus, UNIT / 2),
    ],
};

pub(crate) const TYPE_27: RodType = RodType {
    number: 27,
    symbol: "p-4",
    ops: &[
        rod_motion!([1, 0], [0, 1], Plus, 0),
        rod_motion!([0, 1], [-1, 0], Minus, 0),
        rod_motion!([0, -1], [1, 0], Minus, 0),
        rod_motion!([-1, 0], [0, -1], Plus, 0),
    ],
};

pub(crate) const TYPE_28: RodType = RodType {
    number: 28,
    symbol: "p4/m",
    ops: &[
        rod_motion!([1, 0], [0, 1], Plus, 0),
        rod_motion!([1, 0], [0, 1], Minus, 0),
        rod_motion!([0, 1], [-1, 0], Plus, 0),
        rod_motion!([0, 1], [-1, 0], Minus, 0),
        rod_motion!([0, -1], [1, 0], Plus, 0),
        rod_motion!([0, -1], [1, 0], Minus, 0),
        rod_motion!([-1, 0], [0, -1], Plus, 0),
        rod_motion!([-1, 0], [0, -1], Minus, 0),
    ],
};

pub(crate) const TYPE_29: RodType = RodType {
    number: 29,
    symbol: "p4_2/m",
    ops: &[
        rod_motion!([1, 0], [0, 1], Plus, 0),
        rod_motion!([1, 0], [0, 1], Minus, 0),
        rod_motion!([0, 1], [-1, 0], Plus, UNIT / 2),
        rod_motion!([0, 1], [-1, 0], Minus, UNIT / 2),
        rod_motion!([0, -1], [1, 0], Plus, UNIT / 2),
        rod_motion!([0, -1], [1, 0], Minus, UNIT / 2),
        rod_motion!([-1, 0], [0, -1], Plus, 0),
        rod_motion!([-1, 0], [0, -1], Minus, 0),
    ],
};

pub(crate) const TYPE_30: RodType = RodType {
    number: 30,
    symbol: "p422",
    ops: &[
        rod_motion!([1, 0], [0, 1], Plus, 0),
        rod_motion!([1, 0], [0, -1], Minus, 0),
        rod_motion!([0, 1], [1, 0], Minus, 0),
        rod_motion!([0, 1], [-1, 0], Plus, 0),
        rod_motion!([0, -1], [1, 0], Plus, 0),
        rod_motion!([0, -1], [-1, 0], Minus, 0),
        rod_motion!([-1, 0], [0, 1], Minus, 0),
        rod_motion!([-1, 0], [0, -1], Plus, 0),
    ],
};

pub(crate) const TYPE_31: RodType = RodType {
    number: 31,
    symbol: "p4_122",
    ops: &[
        rod_motion!([1, 0], [0, 1], Plus, 0),
        rod_motion!([1, 0], [0, -1], Minus, 0),
        rod_motion!([0, 1], [1, 0], Minus, UNIT / 4),
        rod_motion!([0, 1], [-1, 0], Plus, UNIT / 4 * 3),
        rod_motion!([0, -1], [1, 0], Plus, UNIT / 4),
        rod_motion!([0, -1], [-1, 0], Minus, UNIT / 4 * 3),
        rod_motion!([-1, 0], [0, 1], Minus, UNIT / 2),
        rod_motion!([-1, 0], [0, -1], Plus, UNIT / 2),
    ],
};

pub(crate) const TYPE_32: RodType = RodType {
    number: 32,
    symbol: "p4_222",
    ops: &[
        rod_motion!([1, 0], [0, 1], Plus, 0),
        rod_motion!([1, 0], [0, -1], Minus, 0),
        rod_motion!([0, 1], [1, 0], Minus, UNIT / 2),
        rod_motion!([0, 1], [-1, 0], Plus, UNIT / 2),
        rod_motion!([0, -1], [1, 0], Plus, UNIT / 2),
        rod_motion!([0, -1], [-1, 0], Minus, UNIT / 2),
        rod_motion!([-1, 0], [0, 1], Minus, 0),
        rod_motion!([-1, 0], [0, -1], Plus, 0),
    ],
};

pub(crate) const TYPE_33: RodType = RodType {
    number: 33,
    symbol: "p4_322",
    ops: &[
        rod_motion!([1, 0], [0, 1], Plus, 0),
        rod_motion!([1, 0], [0, -1], Minus, 0),
        rod_motion!([0, 1], [1, 0], Minus, UNIT / 4 * 3),
        rod_motion!([0, 1], [-1, 0], Plus, UNIT / 4),
        rod_motion!([0, -1], [1, 0], Plus, UNIT / 4 * 3),
        rod_motion!([0, -1], [-1, 0], Minus, UNIT / 4),
        rod_motion!([-1, 0], [0, 1], Minus, UNIT / 2),
        rod_motion!([-1, 0], [0, -1], Plus, UNIT / 2),
    ],
};

pub(crate) const TYPE_34: RodType = RodType {
    number: 34,
    symbol: "p4mm",
    ops: &[
        rod_motion!([1, 0], [0, 1], Plus, 0),
        rod_motion!([1, 0], [0, -1], Plus, 0),
        rod_motion!([0, 1], [1, 0], Plus, 0),
        rod_motion!([0, 1], [-1, 0], Plus, 0),
        rod_motion!([0, -1], [1, 0], Plus, 0),
        rod_motion!([0, -1], [-1, 0], Plus, 0),
        rod_motion!([-1, 0], [0, 1], Plus, 0),
        rod_motion!([-1, 0], [0, -1], Plus, 0),
    ],
};

pub(crate) const TYPE_35: RodType = RodType {
    number: 35,
    symbol: "p4_2cm",
    ops: &[
        rod_motion!([1, 0], [0, 1], Plus, 0),
        rod_motion!([1, 0], [0, -1], Plus, UNIT / 2),
        rod_motion!([0, 1], [1, 0], Plus, 0),
        rod_motion!([0, 1], [-1, 0], Plus, UNIT / 2),
        rod_motion!([0, -1], [1, 0], Plus, UNIT / 2),
        rod_motion!([0, -1], [-1, 0], Plus, 0),
        rod_motion!([-1, 0], [0, 1], Plus, UNIT / 2),
        rod_motion!([-1, 0], [0, -1], Plus, 0),
    ],
};

pub(crate) const TYPE_36: RodType = RodType {
    number: 36,
    symbol: "p4cc",
    ops: &[
        rod_motion!([1, 0], [0, 1], Plus, 0),
        rod_motion!([1, 0], [0, -1], Plus, UNIT / 2),
        rod_motion!([0, 1], [1, 0], Plus, UNIT / 2),
        rod_motion!([0, 1], [-1, 0], Plus, 0),
        rod_motion!([0, -1], [1, 0], Plus, 0),
        rod_motion!([0, -1], [-1, 0], Plus, UNIT / 2),
        rod_motion!([-1, 0], [0, 1], Plus, UNIT / 2),
        rod_motion!([-1, 0], [0, -1], Plus, 0),
    ],
};

pub(crate) const TYPE_37: RodType = RodType {
    number: 37,
    symbol: "p-42m",
    ops: &[
        rod_motion!([1, 0], [0, 1], Plus, 0),
        rod_motion!([1, 0], [0, -1], Minus, 0),
        rod_motion!([0, 1], [1, 0], Plus, 0),
        rod_motion!([0, 1], [-1, 0], Minus, 0),
        rod_motion!([0, -1], [1, 0], Minus, 0),
        rod_motion!([0, -1], [-1, 0], Plus, 0),
        rod_motion!([-1, 0], [0, 1], Minus, 0),
        rod_motion!([-1, 0], [0, -1], Plus, 0),
    ],
};

pub(crate) const TYPE_38: RodType = RodType {
    number: 38,
    symbol: "p-42c",
    ops: &[
        rod_motion!([1, 0], [0, 1], Plus, 0),
        rod_motion!([1, 0], [0, -1], Minus, UNIT / 2),
        rod_motion!([0, 1], [1, 0], Plus, UNIT / 2),
        rod_motion!([0, 1], [-1, 0], Minus, 0),
        rod_motion!([0, -1], [1, 0], Minus, 0),
        rod_motion!([0, -1], [-1, 0], Plus, UNIT / 2),
        rod_motion!([-1, 0], [0, 1], Minus, UNIT / 2),
        rod_motion!([-1, 0], [0, -1], Plus, 0),
    ],
};

pub(crate) const TYPE_39: RodType = RodType {
    number: 39,
    symbol: "p4/mmm",
    ops: &[
        rod_motion!([1, 0], [0, 1], Plus, 0),
        rod_motion!([1, 0], [0, 1], Minus, 0),
        rod_motion!([1, 0], [0, -1], Plus, 0),
        rod_motion!([1, 0], [0, -1], Minus, 0),
        rod_motion!([0, 1], [1, 0], Plus, 0),
        rod_motion!([0, 1], [1, 0], Minus, 0),
        rod_motion!([0, 1], [-1, 0], Plus, 0),
        rod_motion!([0, 1], [-1, 0], Minus, 0),
        rod_motion!([0, -1], [1, 0], Plus, 0),
        rod_motion!([0, -1], [1, 0], Minus, 0),
        rod_motion!([0, -1], [-1, 0], Plus, 0),
        rod_motion!([0, -1], [-1, 0], Minus, 0),
        rod_motion!([-1, 0], [0, 1], Plus, 0),
        rod_motion!([-1, 0], [0, 1], Minus, 0),
        rod_motion!([-1, 0], [0, -1], Plus, 0),
        rod_motion!([-1, 0], [0, -1], Minus, 0),
    ],
};

pub(crate) const TYPE_40: RodType = RodType {
    number: 40,
    symbol: "p4/mcc",
    ops: &[
        rod_motion!([1, 0], [0, 1], Plus, 0),
        rod_motion!([1, 0], [0, 1], Minus, 0),
        rod_motion!([1, 0], [0, -1], Plus, UNIT / 2),
        rod_motion!([1, 0], [0, -1], Minus, UNIT / 2),
        rod_motion!([0, 1], [1, 0], Plus, UNIT / 2),
        rod_motion!([0, 1], [1, 0], Minus, UNIT / 2),
        rod_motion!([0, 1], [-1, 0], Plus, 0),
        rod_motion!([0, 1], [-1, 0], Minus, 0),
        rod_motion!([0, -1], [1, 0], Plus, 0),
        rod_motion!([0, -1], [1, 0], Minus, 0),
        rod_motion!([0, -1], [-1, 0], Plus, UNIT / 2),
        rod_motion!([0, -1], [-1, 0], Minus, UNIT / 2),
        rod_motion!([-1, 0], [0, 1], Plus, UNIT / 2),
        rod_motion!([-1, 0], [0, 1], Minus, UNIT / 2),
        rod_motion!([-1, 0], [0, -1], Plus, 0),
        rod_motion!([-1, 0], [0, -1], Minus, 0),
    ],
};

pub(crate) const TYPE_41: RodType = RodType {
    number: 41,
    symbol: "p4_2/mmc",
    ops: &[
        rod_motion!([1, 0], [0, 1], Plus, 0),
        rod_motion!([1, 0], [0, 1], Minus, 0),
        rod_motion!([1, 0], [0, -1], Plus, 0),
        rod_motion!([1, 0], [0, -1], Minus, 0),
        rod_motion!([0, 1], [1, 0], Plus, UNIT / 2),
        rod_motion!([0, 1], [1, 0], Minus, UNIT / 2),
        rod_motion!([0, 1], [-1, 0], Plus, UNIT / 2),
        rod_motion!([0, 1], [-1, 0], Minus, UNIT / 2),
        rod_motion!([0, -1], [1, 0], Plus, UNIT / 2),
        rod_motion!([0, -1], [1, 0], Minus, UNIT / 2),
        rod_motion!([0, -1], [-1, 0], Plus, UNIT / 2),
        rod_motion!([0, -1], [-1, 0], Minus, UNIT / 2),
        rod_motion!([-1, 0], [0, 1], Plus, 0),
        rod_motion!([-1, 0], [0, 1], Minus, 0),
        rod_motion!([-1, 0], [0, -1], Plus, 0),
        rod_motion!([-1, 0], [0, -1], Minus, 0),
    ],
};
