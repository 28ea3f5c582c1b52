// The hexagonal rod types of the crystal classes 6, -6 and 6/m.
//
// Numbers and symbols are taken after International Tables, Volume E. The generators, and with them the origins, are
// this project's choice (`specs/RodRows.antt`).
use crate::motion::rod_motion;
use crate::rods::RodType;
use fractions::UNIT;
use motions::{RodMotion, Sign};

pub(crate) const TYPE_53: RodType = RodType {
    number: 53,
    symbol: "p6",
    ops: &[
        rod_motion!([1, 0], [0, 1], Plus, 0),
        rod_motion!([1, -1], [1, 0], Plus, 0),
        rod_motion!([0, 1], [-1, 1], Plus, 0),
        rod_motion!([0, -1], [1, -1], Plus, 0),
        rod_motion!([-1, 1], [-1, 0], Plus, 0),
        rod_motion!([-1, 0], [0, -1], Plus, 0),
    ],
};

pub(crate) const TYPE_54: RodType = RodType {
    number: 54,
    symbol: "p6_1",
    ops: &[
        rod_motion!([1, 0], [0, 1], Plus, 0),
        rod_motion!([1, -1], [1, 0], Plus, UNIT / 6),
        rod_motion!([0, 1], [-1, 1], Plus, UNIT / 6 * 5),
        rod_motion!([0, -1], [1, -1], Plus, UNIT / 3),
        rod_motion!([-1, 1], [-1, 0], Plus, UNIT / 3 * 2),
        rod_motion!([-1, 0], [0, -1], Plus, UNIT / 2),
    ],
};

pub(crate) const TYPE_55: RodType = RodType {
    number: 55,
    symbol: "p6_2",
    ops: &[
        rod_motion!([1, 0], [0, 1], Plus, 0),
        rod_motion!([1, -1], [1, 0], Plus, UNIT / 3),
        rod_motion!([0, 1], [-1, 1], Plus, UNIT / 3 * 2),
        rod_motion!([0, -1], [1, -1], Plus, UNIT / 3 * 2),
        rod_motion!([-1, 1], [-1, 0], Plus, UNIT / 3),
        rod_motion!([-1, 0], [0, -1], Plus, 0),
    ],
};

pub(crate) const TYPE_56: RodType = RodType {
    number: 56,
    symbol: "p6_3",
    ops: &[
        rod_motion!([1, 0], [0, 1], Plus, 0),
        rod_motion!([1, -1], [1, 0], Plus, UNIT / 2),
        rod_motion!([0, 1], [-1, 1], Plus, UNIT / 2),
        rod_motion!([0, -1], [1, -1], Plus, 0),
        rod_motion!([-1, 1], [-1, 0], Plus, 0),
        rod_motion!([-1, 0], [0, -1], Plus, UNIT / 2),
    ],
};

pub(crate) const TYPE_57: RodType = RodType {
    number: 57,
    symbol: "p6_4",
    ops: &[
        rod_motion!([1, 0], [0, 1], Plus, 0),
        rod_motion!([1, -1], [1, 0], Plus, UNIT / 3 * 2),
        rod_motion!([0, 1], [-1, 1], Plus, UNIT / 3),
        rod_motion!([0, -1], [1, -1], Plus, UNIT / 3),
        rod_motion!([-1, 1], [-1, 0], Plus, UNIT / 3 * 2),
        rod_motion!([-1, 0], [0, -1], Plus, 0),
    ],
};

pub(crate) const TYPE_58: RodType = RodType {
    number: 58,
    symbol: "p6_5",
    ops: &[
        rod_motion!([1, 0], [0, 1], Plus, 0),
        rod_motion!([1, -1], [1, 0], Plus, UNIT / 6 * 5),
        rod_motion!([0, 1], [-1, 1], Plus, UNIT / 6),
        rod_motion!([0, -1], [1, -1], Plus, UNIT / 3 * 2),
        rod_motion!([-1, 1], [-1, 0], Plus, UNIT / 3),
        rod_motion!([-1, 0], [0, -1], Plus, UNIT / 2),
    ],
};

pub(crate) const TYPE_59: RodType = RodType {
    number: 59,
    symbol: "p-6",
    ops: &[
        rod_motion!([1, 0], [0, 1], Plus, 0),
        rod_motion!([1, 0], [0, 1], Minus, 0),
        rod_motion!([0, -1], [1, -1], Plus, 0),
        rod_motion!([0, -1], [1, -1], Minus, 0),
        rod_motion!([-1, 1], [-1, 0], Plus, 0),
        rod_motion!([-1, 1], [-1, 0], Minus, 0),
    ],
};

pub(crate) const TYPE_60: RodType = RodType {
    number: 60,
    symbol: "p6/m",
    ops: &[
        rod_motion!([1, 0], [0, 1], Plus, 0),
        rod_motion!([1, 0], [0, 1], Minus, 0),
        rod_motion!([1, -1], [1, 0], Plus, 0),
        rod_motion!([1, -1], [1, 0], Minus, 0),
        rod_motion!([0, 1], [-1, 1], Plus, 0),
        rod_motion!([0, 1], [-1, 1], Minus, 0),
        rod_motion!([0, -1], [1, -1], Plus, 0),
        rod_motion!([0, -1], [1, -1], Minus, 0),
        rod_motion!([-1, 1], [-1, 0], Plus, 0),
        rod_motion!([-1, 1], [-1, 0], Minus, 0),
        rod_motion!([-1, 0], [0, -1], Plus, 0),
        rod_motion!([-1, 0], [0, -1], Minus, 0),
    ],
};

pub(crate) const TYPE_61: RodType = RodType {
    number: 61,
    symbol: "p6_3/m",
    ops: &[
        rod_motion!([1, 0], [0, 1], Plus, 0),
        rod_motion!([1, 0], [0, 1], Minus, 0),
        rod_motion!([1, -1], [1, 0], Plus, UNIT / 2),
        rod_motion!([1, -1], [1, 0], Minus, UNIT / 2),
        rod_motion!([0, 1], [-1, 1], Plus, UNIT / 2),
        rod_motion!([0, 1], [-1, 1], Minus, UNIT / 2),
        rod_motion!([0, -1], [1, -1], Plus, 0),
        rod_motion!([0, -1], [1, -1], Minus, 0),
        rod_motion!([-1, 1], [-1, 0], Plus, 0),
        rod_motion!([-1, 1], [-1, 0], Minus, 0),
        rod_motion!([-1, 0], [0, -1], Plus, UNIT / 2),
        rod_motion!([-1, 0], [0, -1], Minus, UNIT / 2),
    ],
};
