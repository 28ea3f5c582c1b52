// The layer types of the square system, 49 to 64.
//
// Numbers and symbols are taken after International Tables, Volume E. The generators, and with them the origins, are
// this project's choice (`specs/Rows.antt`). The operations are what the generators and the lattice make, in order.
use crate::layer_type::LayerType;
use crate::operation::op;
use crate::shifts::HALF_EDGE;
use motions::{LayerMotion, Sign};

pub(crate) const TYPE_49: LayerType = LayerType {
    number: 49,
    symbol: "p4",
    centred: false,
    ops: &[
        op!([1, 0], [0, 1], Plus, [0, 0]),
        op!([0, 1], [-1, 0], Plus, [0, 0]),
        op!([0, -1], [1, 0], Plus, [0, 0]),
        op!([-1, 0], [0, -1], Plus, [0, 0]),
    ],
};

pub(crate) const TYPE_50: LayerType = LayerType {
    number: 50,
    symbol: "p-4",
    centred: false,
    ops: &[
        op!([1, 0], [0, 1], Plus, [0, 0]),
        op!([0, 1], [-1, 0], Minus, [0, 0]),
        op!([0, -1], [1, 0], Minus, [0, 0]),
        op!([-1, 0], [0, -1], Plus, [0, 0]),
    ],
};

pub(crate) const TYPE_51: LayerType = LayerType {
    number: 51,
    symbol: "p4/m",
    centred: false,
    ops: &[
        op!([1, 0], [0, 1], Plus, [0, 0]),
        op!([1, 0], [0, 1], Minus, [0, 0]),
        op!([0, 1], [-1, 0], Plus, [0, 0]),
        op!([0, 1], [-1, 0], Minus, [0, 0]),
        op!([0, -1], [1, 0], Plus, [0, 0]),
        op!([0, -1], [1, 0], Minus, [0, 0]),
        op!([-1, 0], [0, -1], Plus, [0, 0]),
        op!([-1, 0], [0, -1], Minus, [0, 0]),
    ],
};

pub(crate) const TYPE_52: LayerType = LayerType {
    number: 52,
    symbol: "p4/n",
    centred: false,
    ops: &[
        op!([1, 0], [0, 1], Plus, [0, 0]),
        op!([1, 0], [0, 1], Minus, [HALF_EDGE, HALF_EDGE]),
        op!([0, 1], [-1, 0], Plus, [0, 0]),
        op!([0, 1], [-1, 0], Minus, [HALF_EDGE, HALF_EDGE]),
        op!([0, -1], [1, 0], Plus, [0, 0]),
        op!([0, -1], [1, 0], Minus, [HALF_EDGE, HALF_EDGE]),
        op!([-1, 0], [0, -1], Plus, [0, 0]),
        op!([-1, 0], [0, -1], Minus, [HALF_EDGE, HALF_EDGE]),
    ],
};

pub(crate) const TYPE_53: LayerType = LayerType {
    number: 53,
    symbol: "p422",
    centred: false,
    ops: &[
        op!([1, 0], [0, 1], Plus, [0, 0]),
        op!([1, 0], [0, -1], Minus, [0, 0]),
        op!([0, 1], [1, 0], Minus, [0, 0]),
        op!([0, 1], [-1, 0], Plus, [0, 0]),
        op!([0, -1], [1, 0], Plus, [0, 0]),
        op!([0, -1], [-1, 0], Minus, [0, 0]),
        op!([-1, 0], [0, 1], Minus, [0, 0]),
        op!([-1, 0], [0, -1], Plus, [0, 0]),
    ],
};

pub(crate) const TYPE_54: LayerType = LayerType {
    number: 54,
    symbol: "p42_12",
    centred: false,
    ops: &[
        op!([1, 0], [0, 1], Plus, [0, 0]),
        op!([1, 0], [0, -1], Minus, [HALF_EDGE, HALF_EDGE]),
        op!([0, 1], [1, 0], Minus, [HALF_EDGE, HALF_EDGE]),
        op!([0, 1], [-1, 0], Plus, [0, 0]),
        op!([0, -1], [1, 0], Plus, [0, 0]),
        op!([0, -1], [-1, 0], Minus, [HALF_EDGE, HALF_EDGE]),
        op!([-1, 0], [0, 1], Minus, [HALF_EDGE, HALF_EDGE]),
        op!([-1, 0], [0, -1], Plus, [0, 0]),
    ],
};

pub(crate) const TYPE_55: LayerType = LayerType {
    number: 55,
    symbol: "p4mm",
    centred: false,
    ops: &[
        op!([1, 0], [0, 1], Plus, [0, 0]),
        op!([1, 0], [0, -1], Plus, [0, 0]),
        op!([0, 1], [1, 0], Plus, [0, 0]),
        op!([0, 1], [-1, 0], Plus, [0, 0]),
        op!([0, -1], [1, 0], Plus, [0, 0]),
        op!([0, -1], [-1, 0], Plus, [0, 0]),
        op!([-1, 0], [0, 1], Plus, [0, 0]),
        op!([-1, 0], [0, -1], Plus, [0, 0]),
    ],
};

pub(crate) const TYPE_56: LayerType = LayerType {
    number: 56,
    symbol: "p4bm",
    centred: false,
    ops: &[
        op!([1, 0], [0, 1], Plus, [0, 0]),
        op!([1, 0], [0, -1], Plus, [HALF_EDGE, HALF_EDGE]),
        op!([0, 1], [1, 0], Plus, [HALF_EDGE, HALF_EDGE]),
        op!([0, 1], [-1, 0], Plus, [0, 0]),
        op!([0, -1], [1, 0], Plus, [0, 0]),
        op!([0, -1], [-1, 0], Plus, [HALF_EDGE, HALF_EDGE]),
        op!([-1, 0], [0, 1], Plus, [HALF_EDGE, HALF_EDGE]),
        op!([-1, 0], [0, -1], Plus, [0, 0]),
    ],
};

pub(crate) const TYPE_57: LayerType = LayerType {
    number: 57,
    symbol: "p-42m",
    centred: false,
    ops: &[
        op!([1, 0], [0, 1], Plus, [0, 0]),
        op!([1, 0], [0, -1], Minus, [0, 0]),
        op!([0, 1], [1, 0], Plus, [0, 0]),
        op!([0, 1], [-1, 0], Minus, [0, 0]),
        op!([0, -1], [1, 0], Minus, [0, 0]),
        op!([0, -1], [-1, 0], Plus, [0, 0]),
        op!([-1, 0], [0, 1], Minus, [0, 0]),
        op!([-1, 0], [0, -1], Plus, [0, 0]),
    ],
};

pub(crate) const TYPE_58: LayerType = LayerType {
    number: 58,
    symbol: "p-42_1m",
    centred: false,
    ops: &[
        op!([1, 0], [0, 1], Plus, [0, 0]),
        op!([1, 0], [0, -1], Minus, [HALF_EDGE, HALF_EDGE]),
        op!([0, 1], [1, 0], Plus, [HALF_EDGE, HALF_EDGE]),
        op!([0, 1], [-1, 0], Minus, [0, 0]),
        op!([0, -1], [1, 0], Minus, [0, 0]),
        op!([0, -1], [-1, 0], Plus, [HALF_EDGE, HALF_EDGE]),
        op!([-1, 0], [0, 1], Minus, [HALF_EDGE, HALF_EDGE]),
        op!([-1, 0], [0, -1], Plus, [0, 0]),
    ],
};

pub(crate) const TYPE_59: LayerType = LayerType {
    number: 59,
    symbol: "p-4m2",
    centred: false,
    ops: &[
        op!([1, 0], [0, 1], Plus, [0, 0]),
        op!([1, 0], [0, -1], Plus, [0, 0]),
        op!([0, 1], [1, 0], Minus, [0, 0]),
        op!([0, 1], [-1, 0], Minus, [0, 0]),
        op!([0, -1], [1, 0], Minus, [0, 0]),
        op!([0, -1], [-1, 0], Minus, [0, 0]),
        op!([-1, 0], [0, 1], Plus, [0, 0]),
        op!([-1, 0], [0, -1], Plus, [0, 0]),
    ],
};

pub(crate) const TYPE_60: LayerType = LayerType {
    number: 60,
    symbol: "p-4b2",
    centred: false,
    ops: &[
        op!([1, 0], [0, 1], Plus, [0, 0]),
        op!([1, 0], [0, -1], Plus, [HALF_EDGE, HALF_EDGE]),
        op!([0, 1], [1, 0], Minus, [HALF_EDGE, HALF_EDGE]),
        op!([0, 1], [-1, 0], Minus, [0, 0]),
        op!([0, -1], [1, 0], Minus, [0, 0]),
        op!([0, -1], [-1, 0], Minus, [HALF_EDGE, HALF_EDGE]),
        op!([-1, 0], [0, 1], Plus, [HALF_EDGE, HALF_EDGE]),
        op!([-1, 0], [0, -1], Plus, [0, 0]),
    ],
};

pub(crate) const TYPE_61: LayerType = LayerType {
    number: 61,
    symbol: "p4/mmm",
    centred: false,
    ops: &[
        op!([1, 0], [0, 1], Plus, [0, 0]),
        op!([1, 0], [0, 1], Minus, [0, 0]),
        op!([1, 0], [0, -1], Plus, [0, 0]),
        op!([1, 0], [0, -1], Minus, [0, 0]),
        op!([0, 1], [1, 0], Plus, [0, 0]),
        op!([0, 1], [1, 0], Minus, [0, 0]),
        op!([0, 1], [-1, 0], Plus, [0, 0]),
        op!([0, 1], [-1, 0], Minus, [0, 0]),
        op!([0, -1], [1, 0], Plus, [0, 0]),
        op!([0, -1], [1, 0], Minus, [0, 0]),
        op!([0, -1], [-1, 0], Plus, [0, 0]),
        op!([0, -1], [-1, 0], Minus, [0, 0]),
        op!([-1, 0], [0, 1], Plus, [0, 0]),
        op!([-1, 0], [0, 1], Minus, [0, 0]),
        op!([-1, 0], [0, -1], Plus, [0, 0]),
        op!([-1, 0], [0, -1], Minus, [0, 0]),
    ],
};

pub(crate) const TYPE_62: LayerType = LayerType {
    number: 62,
    symbol: "p4/nbm",
    centred: false,
    ops: &[
        op!([1, 0], [0, 1], Plus, [0, 0]),
        op!([1, 0], [0, 1], Minus, [HALF_EDGE, HALF_EDGE]),
        op!([1, 0], [0, -1], Plus, [HALF_EDGE, HALF_EDGE]),
        op!([1, 0], [0, -1], Minus, [0, 0]),
        op!([0, 1], [1, 0], Plus, [HALF_EDGE, HALF_EDGE]),
        op!([0, 1], [1, 0], Minus, [0, 0]),
        op!([0, 1], [-1, 0], Plus, [0, 0]),
        op!([0, 1], [-1, 0], Minus, [HALF_EDGE, HALF_EDGE]),
        op!([0, -1], [1, 0], Plus, [0, 0]),
        op!([0, -1], [1, 0], Minus, [HALF_EDGE, HALF_EDGE]),
        op!([0, -1], [-1, 0], Plus, [HALF_EDGE, HALF_EDGE]),
        op!([0, -1], [-1, 0], Minus, [0, 0]),
        op!([-1, 0], [0, 1], Plus, [HALF_EDGE, HALF_EDGE]),
        op!([-1, 0], [0, 1], Minus, [0, 0]),
        op!([-1, 0], [0, -1], Plus, [0, 0]),
        op!([-1, 0], [0, -1], Minus, [HALF_EDGE, HALF_EDGE]),
    ],
};

pub(crate) const TYPE_63: LayerType = LayerType {
    number: 63,
    symbol: "p4/mbm",
    centred: false,
    ops: &[
        op!([1, 0], [0, 1], Plus, [0, 0]),
        op!([1, 0], [0, 1], Minus, [0, 0]),
        op!([1, 0], [0, -1], Plus, [HALF_EDGE, HALF_EDGE]),
        op!([1, 0], [0, -1], Minus, [HALF_EDGE, HALF_EDGE]),
        op!([0, 1], [1, 0], Plus, [HALF_EDGE, HALF_EDGE]),
        op!([0, 1], [1, 0], Minus, [HALF_EDGE, HALF_EDGE]),
        op!([0, 1], [-1, 0], Plus, [0, 0]),
        op!([0, 1], [-1, 0], Minus, [0, 0]),
        op!([0, -1], [1, 0], Plus, [0, 0]),
        op!([0, -1], [1, 0], Minus, [0, 0]),
        op!([0, -1], [-1, 0], Plus, [HALF_EDGE, HALF_EDGE]),
        op!([0, -1], [-1, 0], Minus, [HALF_EDGE, HALF_EDGE]),
        op!([-1, 0], [0, 1], Plus, [HALF_EDGE, HALF_EDGE]),
        op!([-1, 0], [0, 1], Minus, [HALF_EDGE, HALF_EDGE]),
        op!([-1, 0], [0, -1], Plus, [0, 0]),
        op!([-1, 0], [0, -1], Minus, [0, 0]),
    ],
};

pub(crate) const TYPE_64: LayerType = LayerType {
    number: 64,
    symbol: "p4/nmm",
    centred: false,
    ops: &[
        op!([1, 0], [0, 1], Plus, [0, 0]),
        op!([1, 0], [0, 1], Minus, [HALF_EDGE, HALF_EDGE]),
        op!([1, 0], [0, -1], Plus, [0, 0]),
        op!([1, 0], [0, -1], Minus, [HALF_EDGE, HALF_EDGE]),
        op!([0, 1], [1, 0], Plus, [0, 0]),
        op!([0, 1], [1, 0], Minus, [HALF_EDGE, HALF_EDGE]),
        op!([0, 1], [-1, 0], Plus, [0, 0]),
        op!([0, 1], [-1, 0], Minus, [HALF_EDGE, HALF_EDGE]),
        op!([0, -1], [1, 0], Plus, [0, 0]),
        op!([0, -1], [1, 0], Minus, [HALF_EDGE, HALF_EDGE]),
        op!([0, -1], [-1, 0], Plus, [0, 0]),
        op!([0, -1], [-1, 0], Minus, [HALF_EDGE, HALF_EDGE]),
        op!([-1, 0], [0, 1], Plus, [0, 0]),
        op!([-1, 0], [0, 1], Minus, [HALF_EDGE, HALF_EDGE]),
        op!([-1, 0], [0, -1], Plus, [0, 0]),
        op!([-1, 0], [0, -1], Minus, [HALF_EDGE, HALF_EDGE]),
    ],
};
