// The triclinic and the monoclinic rod types.
//
// Numbers and symbols are taken after International Tables, Volume E. The generators, and with them the origins, are
// this project's choice (`specs/RodRows.antt`).
use crate::motion::rod_motion;
use crate::rods::RodType;
use fractions::UNIT;
use motions::{RodMotion, Sign};

pub(crate) const TYPE_1: RodType = RodType {
    number: 1,
    symbol: "p1",
    ops: &[rod_motion!([1, 0], [0, 1], Plus, 0)],
};

pub(crate) const TYPE_2: RodType = RodType {
    number: 2,
    symbol: "p-1",
    ops: &[
        rod_motion!([1, 0], [0, 1], Plus, 0),
        rod_motion!([-1, 0], [0, -1], Minus, 0),
    ],
};

pub(crate) const TYPE_3: RodType = RodType {
    number: 3,
    symbol: "p211",
    ops: &[
        rod_motion!([1, 0], [0, 1], Plus, 0),
        rod_motion!([1, 0], [0, -1], Minus, 0),
    ],
};

pub(crate) const TYPE_4: RodType = RodType {
    number: 4,
    symbol: "pm11",
    ops: &[
        rod_motion!([1, 0], [0, 1], Plus, 0),
        rod_motion!([-1, 0], [0, 1], Plus, 0),
    ],
};

pub(crate) const TYPE_5: RodType = RodType {
    number: 5,
    symbol: "pc11",
    ops: &[
        rod_motion!([1, 0], [0, 1], Plus, 0),
        rod_motion!([-1, 0], [0, 1], Plus, UNIT / 2),
    ],
};

pub(crate) const TYPE_6: RodType = RodType {
    number: 6,
    symbol: "p2/m11",
    ops: &[
        rod_motion!([1, 0], [0, 1], Plus, 0),
        rod_motion!([1, 0], [0, -1], Minus, 0),
        rod_motion!([-1, 0], [0, 1], Plus, 0),
        rod_motion!([-1, 0], [0, -1], Minus, 0),
    ],
};

pub(crate) const TYPE_7: RodType = RodType {
    number: 7,
    symbol: "p2/c11",
    ops: &[
        rod_motion!([1, 0], [0, 1], Plus, 0),
        rod_motion!([1, 0], [0, -1], Minus, UNIT / 2),
        rod_motion!([-1, 0], [0, 1], Plus, UNIT / 2),
        rod_motion!([-1, 0], [0, -1], Minus, 0),
    ],
};

pub(crate) const TYPE_8: RodType = RodType {
    number: 8,
    symbol: "p112",
    ops: &[
        rod_motion!([1, 0], [0, 1], Plus, 0),
        rod_motion!([-1, 0], [0, -1], Plus, 0),
    ],
};

pub(crate) const TYPE_9: RodType = RodType {
    number: 9,
    symbol: "p112_1",
    ops: &[
        rod_motion!([1, 0], [0, 1], Plus, 0),
        rod_motion!([-1, 0], [0, -1], Plus, UNIT / 2),
    ],
};

pub(crate) const TYPE_10: RodType = RodType {
    number: 10,
    symbol: "p11m",
    ops: &[
        rod_motion!([1, 0], [0, 1], Plus, 0),
        rod_motion!([1, 0], [0, 1], Minus, 0),
    ],
};

pub(crate) const TYPE_11: RodType = RodType {
    number: 11,
    symbol: "p112/m",
    ops: &[
        rod_motion!([1, 0], [0, 1], Plus, 0),
        rod_motion!([1, 0], [0, 1], Minus, 0),
        rod_motion!([-1, 0], [0, -1], Plus, 0),
        rod_motion!([-1, 0], [0, -1], Minus, 0),
    ],
};

pub(crate) const TYPE_12: RodType = RodType {
    number: 12,
    symbol: "p112_1/m",
    ops: &[
        rod_motion!([1, 0], [0, 1], Plus, 0),
        rod_motion!([1, 0], [0, 1], Minus, 0),
        rod_motion!([-1, 0], [0, -1], Plus, UNIT / 2),
        rod_motion!([-1, 0], [0, -1], Minus, UNIT / 2),
    ],
};
