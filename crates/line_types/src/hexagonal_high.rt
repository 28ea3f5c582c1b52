// The hexagonal rod types of the crystal classes 622, 6mm, -6m2 and 6/mmm.
//
// Numbers and symbols are taken after International Tables, Volume E. The generators, and with them the origins, are
// this project's choice (`specs/RodRows.antt`).
use crate::motion::rod_motion;
use crate::rods::RodType;
use fractions::UNIT;
use motions::{RodMotion, Sign};

pub(crate) const TYPE_62: RodType = RodType {
    number: 62,
    symbol: "p622",
    ops: &[
        rod_motion!([1, 0], [0, 1], Plus, 0),
        rod_motion!([1, 0], [1, -1], Minus, 0),
        rod_motion!([1, -1], [1, 0], Plus, 0),
        rod_motion!([1, -1], [0, -1], Minus, 0),
        rod_motion!([0, 1], [1, 0], Minus, 0),
        rod_motion!([0, 1], [-1, 1], Plus, 0),
        rod_motion!([0, -1], [1, -1], Plus, 0),
        rod_motion!([0, -1], [-1, 0], Minus, 0),
        rod_motion!([-1, 1], [0, 1], Minus, 0),
        rod_motion!([-1, 1], [-1, 0], Plus, 0),
        rod_motion!([-1, 0], [0, -1], Plus, 0),
        rod_motion!([-1, 0], [-1, 1], Minus, 0),
    ],
};

pub(crate) const TYPE_63: RodType = RodType {
    number: 63,
    symbol: "p6_122",
    ops: &[
        rod_motion!([1, 0], [0, 1], Plus, 0),
        rod_motion!([1, 0], [1, -1], Minus, UNIT / 6 * 5),
        rod_motion!([1, -1], [1, 0], Plus, UNIT / 6),
        rod_motion!([1, -1], [0, -1], Minus, UNIT / 3 * 2),
        rod_motion!([0, 1], [1, 0], Minus, 0),
        rod_motion!([0, 1], [-1, 1], Plus, UNIT / 6 * 5),
        rod_motion!([0, -1], [1, -1], Plus, UNIT / 3),
        rod_motion!([0, -1], [-1, 0], Minus, UNIT / 2),
        rod_motion!([-1, 1], [0, 1], Minus, UNIT / 6),
        rod_motion!([-1, 1], [-1, 0], Plus, UNIT / 3 * 2),
        rod_motion!([-1, 0], [0, -1], Plus, UNIT / 2),
        rod_motion!([-1, 0], [-1, 1], Minus, UNIT / 3),
    ],
};

pub(crate) const TYPE_64: RodType = RodType {
    number: 64,
    symbol: "p6_222",
    ops: &[
        rod_motion!([1, 0], [0, 1], Plus, 0),
        rod_motion!([1, 0], [1, -1], Minus, UNIT / 3 * 2),
        rod_motion!([1, -1], [1, 0], Plus, UNIT / 3),
        rod_motion!([1, -1], [0, -1], Minus, UNIT / 3),
        rod_motion!([0, 1], [1, 0], Minus, 0),
        rod_motion!([0, 1], [-1, 1], Plus, UNIT / 3 * 2),
        rod_motion!([0, -1], [1, -1], Plus, UNIT / 3 * 2),
        rod_motion!([0, -1], [-1, 0], Minus, 0),
        rod_motion!([-1, 1], [0, 1], Minus, UNIT / 3),
        rod_motion!([-1, 1], [-1, 0], Plus, UNIT / 3),
        rod_motion!([-1, 0], [0, -1], Plus, 0),
        rod_motion!([-1, 0], [-1, 1], Minus, UNIT / 3 * 2),
    ],
};

pub(crate) const TYPE_65: RodType = RodType {
    number: 65,
    symbol: "p6_322",
    ops: &[
        rod_motion!([1, 0], [0, 1], Plus, 0),
        rod_motion!([1, 0], [1, -1], Minus, UNIT / 2),
        rod_motion!([1, -1], [1, 0], Plus, UNIT / 2),
        rod_motion!([1, -1], [0, -1], Minus, 0),
        rod_motion!([0, 1], [1, 0], Minus, 0),
        rod_motion!([0, 1], [-1, 1], Plus, UNIT / 2),
        rod_motion!([0, -1], [1, -1], Plus, 0),
        rod_motion!([0, -1], [-1, 0], Minus, UNIT / 2),
        rod_motion!([-1, 1], [0, 1], Minus, UNIT / 2),
        rod_motion!([-1, 1], [-1, 0], Plus, 0),
        rod_motion!([-1, 0], [0, -1], Plus, UNIT / 2),
        rod_motion!([-1, 0], [-1, 1], Minus, 0),
    ],
};

pub(crate) const TYPE_66: RodType = RodType {
    number: 66,
    symbol: "p6_422",
    ops: &[
        rod_motion!([1, 0], [0, 1], Plus, 0),
        rod_motion!([1, 0], [1, -1], Minus, UNIT / 3),
        rod_motion!([1, -1], [1, 0], Plus, UNIT / 3 * 2),
        rod_motion!([1, -1], [0, -1], Minus, UNIT / 3 * 2),
        rod_motion!([0, 1], [1, 0], Minus, 0),
        rod_motion!([0, 1], [-1, 1], Plus, UNIT / 3),
        rod_motion!([0, -1], [1, -1], Plus, UNIT / 3),
        rod_motion!([0, -1], [-1, 0], Minus, 0),
        rod_motion!([-1, 1], [0, 1], Minus, UNIT / 3 * 2),
        rod_motion!([-1, 1], [-1, 0], Plus, UNIT / 3 * 2),
        rod_motion!([-1, 0], [0, -1], Plus, 0),
        rod_motion!([-1, 0], [-1, 1], Minus, UNIT / 3),
    ],
};

pub(crate) const TYPE_67: RodType = RodType {
    number: 67,
    symbol: "p6_522",
    ops: &[
        rod_motion!([1, 0], [0, 1], Plus, 0),
        rod_motion!([1, 0], [1, -1], Minus, UNIT / 6),
        rod_motion!([1, -1], [1, 0], Plus, UNIT / 6 * 5),
        rod_motion!([1, -1], [0, -1], Minus, UNIT / 3),
        rod_motion!([0, 1], [1, 0], Minus, 0),
        rod_motion!([0, 1], [-1, 1], Plus, UNIT / 6),
        rod_motion!([0, -1], [1, -1], Plus, UNIT / 3 * 2),
        rod_motion!([0, -1], [-1, 0], Minus, UNIT / 2),
        rod_motion!([-1, 1], [0, 1], Minus, UNIT / 6 * 5),
        rod_motion!([-1, 1], [-1, 0], Plus, UNIT / 3),
        rod_motion!([-1, 0], [0, -1], Plus, UNIT / 2),
        rod_motion!([-1, 0], [-1, 1], Minus, UNIT / 3 * 2),
    ],
};

pub(crate) const TYPE_68: RodType = RodType {
    number: 68,
    symbol: "p6mm",
    ops: &[
        rod_motion!([1, 0], [0, 1], Plus, 0),
        rod_motion!([1, 0], [1, -1], Plus, 0),
        rod_motion!([1, -1], [1, 0], Plus, 0),
        rod_motion!([1, -1], [0, -1], Plus, 0),
        rod_motion!([0, 1], [1, 0], Plus, 0),
        rod_motion!([0, 1], [-1, 1], Plus, 0),
        rod_motion!([0, -1], [1, -1], Plus, 0),
        rod_motion!([0, -1], [-1, 0], Plus, 0),
        rod_motion!([-1, 1], [0, 1], Plus, 0),
        rod_motion!([-1, 1], [-1, 0], Plus, 0),
        rod_motion!([-1, 0], [0, -1], Plus, 0),
        rod_motion!([-1, 0], [-1, 1], Plus, 0),
    ],
};

pub(crate) const TYPE_69: RodType = RodType {
    number: 69,
    symbol: "p6cc",
    ops: &[
        rod_motion!([1, 0], [0, 1], Plus, 0),
        rod_motion!([1, 0], [1, -1], Plus, UNIT / 2),
        rod_motion!([1, -1], [1, 0], Plus, 0),
        rod_motion!([1, -1], [0, -1], Plus, UNIT / 2),
        rod_motion!([0, 1], [1, 0], Plus, UNIT / 2),
        rod_motion!([0, 1], [-1, 1], Plus, 0),
        rod_motion!([0, -1], [1, -1], Plus, 0),
        rod_motion!([0, -1], [-1, 0], Plus, UNIT / 2),
        rod_motion!([-1, 1], [0, 1], Plus, UNIT / 2),
        rod_motion!([-1, 1], [-1, 0], Plus, 0),
        rod_motion!([-1, 0], [0, -1], Plus, 0),
        rod_motion!([-1, 0], [-1, 1], Plus, UNIT / 2),
    ],
};

pub(crate) const TYPE_70: RodType = RodType {
    number: 70,
    symbol: "p6_3mc",
    ops: &[
        rod_motion!([1, 0], [0, 1], Plus, 0),
        rod_motion!([1, 0], [1, -1], Plus, 0),
        rod_motion!([1, -1], [1, 0], Plus, UNIT / 2),
        rod_motion!([1, -1], [0, -1], Plus, UNIT / 2),
        rod_motion!([0, 1], [1, 0], Plus, UNIT / 2),
        rod_motion!([0, 1], [-1, 1], Plus, UNIT / 2),
        rod_motion!([0, -1], [1, -1], Plus, 0),
        rod_motion!([0, -1], [-1, 0], Plus, 0),
        rod_motion!([-1, 1], [0, 1], Plus, 0),
        rod_motion!([-1, 1], [-1, 0], Plus, 0),
        rod_motion!([-1, 0], [0, -1], Plus, UNIT / 2),
        rod_motion!([-1, 0], [-1, 1], Plus, UNIT / 2),
    ],
};

pub(crate) const TYPE_71: RodType = RodType {
    number: 71,
    symbol: "p-6m2",
    ops: &[
        rod_motion!([1, 0], [0, 1], Plus, 0),
        rod_motion!([1, 0], [1, -1], Plus, 0),
        rod_motion!([1, 0], [1, -1], Minus, 0),
        rod_motion!([1, 0], [0, 1], Minus, 0),
        rod_motion!([0, -1], [1, -1], Plus, 0),
        rod_motion!([0, -1], [1, -1], Minus, 0),
        rod_motion!([0, -1], [-1, 0], Plus, 0),
        rod_motion!([0, -1], [-1, 0], Minus, 0),
        rod_motion!([-1, 1], [0, 1], Plus, 0),
        rod_motion!([-1, 1], [0, 1], Minus, 0),
        rod_motion!([-1, 1], [-1, 0], Plus, 0),
        rod_motion!([-1, 1], [-1, 0], Minus, 0),
    ],
};

pub(crate) const TYPE_72: RodType = RodType {
    number: 72,
    symbol: "p-6c2",
    ops: &[
        rod_motion!([1, 0], [0, 1], Plus, 0),
        rod_motion!([1, 0], [1, -1], Plus, UNIT / 2),
        rod_motion!([1, 0], [1, -1], Minus, UNIT / 2),
        rod_motion!([1, 0], [0, 1], Minus, 0),
        rod_motion!([0, -1], [1, -1], Plus, 0),
        rod_motion!([0, -1], [1, -1], Minus, 0),
        rod_motion!([0, -1], [-1, 0], Plus, UNIT / 2),
        rod_motion!([0, -1], [-1, 0], Minus, UNIT / 2),
        rod_motion!([-1, 1], [0, 1], Plus, UNIT / 2),
        rod_motion!([-1, 1], [0, 1], Minus, UNIT / 2),
        rod_motion!([-1, 1], [-1, 0], Plus, 0),
        rod_motion!([-1, 1], [-1, 0], Minus, 0),
    ],
};

pub(crate) const TYPE_73: RodType = RodType {
    number: 73,
    symbol: "p6/mmm",
    ops: &[
        rod_motion!([1, 0], [0, 1], Plus, 0),
        rod_motion!([1, 0], [1, -1], Plus, 0),
        rod_motion!([1, 0], [1, -1], Minus, 0),
        rod_motion!([1, 0], [0, 1], Minus, 0),
        rod_motion!([1, -1], [1, 0], Plus, 0),
        rod_motion!([1, -1], [1, 0], Minus, 0),
        rod_motion!([1, -1], [0, -1], Plus, 0),
        rod_motion!([1, -1], [0, -1], Minus, 0),
        rod_motion!([0, 1], [1, 0], Plus, 0),
        rod_motion!([0, 1], [1, 0], Minus, 0),
        rod_motion!([0, 1], [-1, 1], Plus, 0),
        rod_motion!([0, 1], [-1, 1], Minus, 0),
        rod_motion!([0, -1], [1, -1], Plus, 0),
        rod_motion!([0, -1], [1, -1], Minus, 0),
        rod_motion!([0, -1], [-1, 0], Plus, 0),
        rod_motion!([0, -1], [-1, 0], Minus, 0),
        rod_motion!([-1, 1], [0, 1], Plus, 0),
        rod_motion!([-1, 1], [0, 1], Minus, 0),
        rod_motion!([-1, 1], [-1, 0], Plus, 0),
        rod_motion!([-1, 1], [-1, 0], Minus, 0),
        rod_motion!([-1, 0], [0, -1], Plus, 0),
        rod_motion!([-1, 0], [0, -1], Minus, 0),
        rod_motion!([-1, 0], [-1, 1], Plus, 0),
        rod_motion!([-1, 0], [-1, 1], Minus, 0),
    ],
};

pub(crate) const TYPE_74: RodType = RodType {
    number: 74,
    symbol: "p6/mcc",
    ops: &[
        rod_motion!([1, 0], [0, 1], Plus, 0),
        rod_motion!([1, 0], [1, -1], Plus, UNIT / 2),
        rod_motion!([1, 0], [1, -1], Minus, UNIT / 2),
        rod_motion!([1, 0], [0, 1], Minus, 0),
        rod_motion!([1, -1], [1, 0], Plus, 0),
        rod_motion!([1, -1], [1, 0], Minus, 0),
        rod_motion!([1, -1], [0, -1], Plus, UNIT / 2),
        rod_motion!([1, -1], [0, -1], Minus, UNIT / 2),
        rod_motion!([0, 1], [1, 0], Plus, UNIT / 2),
        rod_motion!([0, 1], [1, 0], Minus, UNIT / 2),
        rod_motion!([0, 1], [-1, 1], Plus, 0),
        rod_motion!([0, 1], [-1, 1], Minus, 0),
        rod_motion!([0, -1], [1, -1], Plus, 0),
        rod_motion!([0, -1], [1, -1], Minus, 0),
        rod_motion!([0, -1], [-1, 0], Plus, UNIT / 2),
        rod_motion!([0, -1], [-1, 0], Minus, UNIT / 2),
        rod_motion!([-1, 1], [0, 1], Plus, UNIT / 2),
        rod_motion!([-1, 1], [0, 1], Minus, UNIT / 2),
        rod_motion!([-1, 1], [-1, 0], Plus, 0),
        rod_motion!([-1, 1], [-1, 0], Minus, 0),
        rod_motion!([-1, 0], [0, -1], Plus, 0),
        rod_motion!([-1, 0], [0, -1], Minus, 0),
        rod_motion!([-1, 0], [-1, 1], Plus, UNIT / 2),
        rod_motion!([-1, 0], [-1, 1], Minus, UNIT / 2),
    ],
};

pub(crate) const TYPE_75: RodType = RodType {
    number: 75,
    symbol: "p6_3/mmc",
    ops: &[
        rod_motion!([1, 0], [0, 1], Plus, 0),
        rod_motion!([1, 0], [1, -1], Plus, 0),
        rod_motion!([1, 0], [1, -1], Minus, 0),
        rod_motion!([1, 0], [0, 1], Minus, 0),
        rod_motion!([1, -1], [1, 0], Plus, UNIT / 2),
        rod_motion!([1, -1], [1, 0], Minus, UNIT / 2),
        rod_motion!([1, -1], [0, -1], Plus, UNIT / 2),
        rod_motion!([1, -1], [0, -1], Minus, UNIT / 2),
        rod_motion!([0, 1], [1, 0], Plus, UNIT / 2),
        rod_motion!([0, 1], [1, 0], Minus, UNIT / 2),
        rod_motion!([0, 1], [-1, 1], Plus, UNIT / 2),
        rod_motion!([0, 1], [-1, 1], Minus, UNIT / 2),
        rod_motion!([0, -1], [1, -1], Plus, 0),
        rod_motion!([0, -1], [1, -1], Minus, 0),
        rod_motion!([0, -1], [-1, 0], Plus, 0),
        rod_motion!([0, -1], [-1, 0], Minus, 0),
        rod_motion!([-1, 1], [0, 1], Plus, 0),
        rod_motion!([-1, 1], [0, 1], Minus, 0),
        rod_motion!([-1, 1], [-1, 0], Plus, 0),
        rod_motion!([-1, 1], [-1, 0], Minus, 0),
        rod_motion!([-1, 0], [0, -1], Plus, UNIT / 2),
        rod_motion!([-1, 0], [0, -1], Minus, UNIT / 2),
        rod_motion!([-1, 0], [-1, 1], Plus, UNIT / 2),
        rod_motion!([-1, 0], [-1, 1], Minus, UNIT / 2),
    ],
};
