// The trigonal rod types.
//
// Numbers and symbols are taken after International Tables, Volume E. The generators, and with them the origins, are
// this project's choice (`specs/RodRows.antt`).
use crate::motion::rod_motion;
use crate::rods::RodType;
use fractions::UNIT;
use motions::{RodMotion, Sign};

pub(crate) const TYPE_42: RodType = RodType {
    number: 42,
    symbol: "p3",
    ops: &[
        rod_motion!([1, 0], [0, 1], Plus, 0),
        rod_motion!([0, -1], [1, -1], Plus, 0),
        rod_motion!([-1, 1], [-1, 0], Plus, 0),
    ],
};

pub(crate) const TYPE_43: RodType = RodType {
    number: 43,
    symbol: "p3_1",
    ops: &[
        rod_motion!([1, 0], [0, 1], Plus, 0),
        rod_motion!([0, -1], [1, -1], Plus, UNIT / 3),
        rod_motion!([-1, 1], [-1, 0], Plus, UNIT / 3 * 2),
    ],
};

pub(crate) const TYPE_44: RodType = RodType {
    number: 44,
    symbol: "p3_2",
    ops: &[
        rod_motion!([1, 0], [0, 1], Plus, 0),
        rod_motion!([0, -1], [1, -1], Plus, UNIT / 3 * 2),
        rod_motion!([-1, 1], [-1, 0], Plus, UNIT / 3),
    ],
};

pub(crate) const TYPE_45: RodType = RodType {
    number: 45,
    symbol: "p-3",
    ops: &[
        rod_motion!([1, 0], [0, 1], Plus, 0),
        rod_motion!([1, -1], [1, 0], Minus, 0),
        rod_motion!([0, 1], [-1, 1], Minus, 0),
        rod_motion!([0, -1], [1, -1], Plus, 0),
        rod_motion!([-1, 1], [-1, 0], Plus, 0),
        rod_motion!([-1, 0], [0, -1], Minus, 0),
    ],
};

pub(crate) const TYPE_46: RodType = RodType {
    number: 46,
    symbol: "p312",
    ops: &[
        rod_motion!([1, 0], [0, 1], Plus, 0),
        rod_motion!([1, 0], [1, -1], Minus, 0),
        rod_motion!([0, -1], [1, -1], Plus, 0),
        rod_motion!([0, -1], [-1, 0], Minus, 0),
        rod_motion!([-1, 1], [0, 1], Minus, 0),
        rod_motion!([-1, 1], [-1, 0], Plus, 0),
    ],
};

pub(crate) const TYPE_47: RodType = RodType {
    number: 47,
    symbol: "p3_112",
    ops: &[
        rod_motion!([1, 0], [0, 1], Plus, 0),
        rod_motion!([1, 0], [1, -1], Minus, UNIT / 3),
        rod_motion!([0, -1], [1, -1], Plus, UNIT / 3),
        rod_motion!([0, -1], [-1, 0], Minus, 0),
        rod_motion!([-1, 1], [0, 1], Minus, UNIT / 3 * 2),
        rod_motion!([-1, 1], [-1, 0], Plus, UNIT / 3 * 2),
    ],
};

pub(crate) const TYPE_48: RodType = RodType {
    number: 48,
    symbol: "p3_212",
    ops: &[
        rod_motion!([1, 0], [0, 1], Plus, 0),
        rod_motion!([1, 0], [1, -1], Minus, UNIT / 3 * 2),
        rod_motion!([0, -1], [1, -1], Plus, UNIT / 3 * 2),
        rod_motion!([0, -1], [-1, 0], Minus, 0),
        rod_motion!([-1, 1], [0, 1], Minus, UNIT / 3),
        rod_motion!([-1, 1], [-1, 0], Plus, UNIT / 3),
    ],
};

pub(crate) const TYPE_49: RodType = RodType {
    number: 49,
    symbol: "p3m1",
    ops: &[
        rod_motion!([1, 0], [0, 1], Plus, 0),
        rod_motion!([1, 0], [1, -1], Plus, 0),
        rod_motion!([0, -1], [1, -1], Plus, 0),
        rod_motion!([0, -1], [-1, 0], Plus, 0),
        rod_motion!([-1, 1], [0, 1], Plus, 0),
        rod_motion!([-1, 1], [-1, 0], Plus, 0),
    ],
};

pub(crate) const TYPE_50: RodType = RodType {
    number: 50,
    symbol: "p3c1",
    ops: &[
        rod_motion!([1, 0], [0, 1], Plus, 0),
        rod_motion!([1, 0], [1, -1], Plus, UNIT / 2),
        rod_motion!([0, -1], [1, -1], Plus, 0),
        rod_motion!([0, -1], [-1, 0], Plus, UNIT / 2),
        rod_motion!([-1, 1], [0, 1], Plus, UNIT / 2),
        rod_motion!([-1, 1], [-1, 0], Plus, 0),
    ],
};

pub(crate) const TYPE_51: RodType = RodType {
    number: 51,
    symbol: "p-31m",
    ops: &[
        rod_motion!([1, 0], [0, 1], Plus, 0),
        rod_motion!([1, 0], [1, -1], Minus, 0),
        rod_motion!([1, -1], [1, 0], Minus, 0),
        rod_motion!([1, -1], [0, -1], Plus, 0),
        rod_motion!([0, 1], [1, 0], Plus, 0),
        rod_motion!([0, 1], [-1, 1], Minus, 0),
        rod_motion!([0, -1], [1, -1], Plus, 0),
        rod_motion!([0, -1], [-1, 0], Minus, 0),
        rod_motion!([-1, 1], [0, 1], Minus, 0),
        rod_motion!([-1, 1], [-1, 0], Plus, 0),
        rod_motion!([-1, 0], [0, -1], Minus, 0),
        rod_motion!([-1, 0], [-1, 1], Plus, 0),
    ],
};

pub(crate) const TYPE_52: RodType = RodType {
    number: 52,
    symbol: "p-31c",
    ops: &[
        rod_motion!([1, 0], [0, 1], Plus, 0),
        rod_motion!([1, 0], [1, -1], Minus, UNIT / 2),
        rod_motion!([1, -1], [1, 0], Minus, 0),
        rod_motion!([1, -1], [0, -1], Plus, UNIT / 2),
        rod_motion!([0, 1], [1, 0], Plus, UNIT / 2),
        rod_motion!([0, 1], [-1, 1], Minus, 0),
        rod_motion!([0, -1], [1, -1], Plus, 0),
        rod_motion!([0, -1], [-1, 0], Minus, UNIT / 2),
        rod_motion!([-1, 1], [0, 1], Minus, UNIT / 2),
        rod_motion!([-1, 1], [-1, 0], Plus, 0),
        rod_motion!([-1, 0], [0, -1], Minus, 0),
        rod_motion!([-1, 0], [-1, 1], Plus, UNIT / 2),
    ],
};
