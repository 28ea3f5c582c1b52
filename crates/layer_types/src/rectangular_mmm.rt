// The layer types of the rectangular system, 37 to 48: the point group mmm.
//
// Numbers and symbols are taken after International Tables, Volume E. The generators, and with them the origins, are
// this project's choice (`specs/Rows.antt`). The operations are what the generators and the lattice make, in order.
use crate::layer_type::LayerType;
use crate::operation::op;
use crate::shifts::HALF_EDGE;
use motions::{LayerMotion, Sign};

pub(crate) const TYPE_37: LayerType = LayerType {
    number: 37,
    symbol: "pmmm",
    centred: false,
    ops: &[
        op!([1, 0], [0, 1], Plus, [0, 0]),
        op!([1, 0], [0, 1], Minus, [0, 0]),
        op!([1, 0], [0, -1], Plus, [0, 0]),
        op!([1, 0], [0, -1], Minus, [0, 0]),
        op!([-1, 0], [0, 1], Plus, [0, 0]),
        op!([-1, 0], [0, 1], Minus, [0, 0]),
        op!([-1, 0], [0, -1], Plus, [0, 0]),
        op!([-1, 0], [0, -1], Minus, [0, 0]),
    ],
};

pub(crate) const TYPE_38: LayerType = LayerType {
    number: 38,
    symbol: "pmaa",
    centred: false,
    ops: &[
        op!([1, 0], [0, 1], Plus, [0, 0]),
        op!([1, 0], [0, 1], Minus, [HALF_EDGE, 0]),
        op!([1, 0], [0, -1], Plus, [HALF_EDGE, 0]),
        op!([1, 0], [0, -1], Minus, [0, 0]),
        op!([-1, 0], [0, 1], Plus, [0, 0]),
        op!([-1, 0], [0, 1], Minus, [HALF_EDGE, 0]),
        op!([-1, 0], [0, -1], Plus, [HALF_EDGE, 0]),
        op!([-1, 0], [0, -1], Minus, [0, 0]),
    ],
};

pub(crate) const TYPE_39: LayerType = LayerType {
    number: 39,
    symbol: "pban",
    centred: false,
    ops: &[
        op!([1, 0], [0, 1], Plus, [0, 0]),
        op!([1, 0], [0, 1], Minus, [HALF_EDGE, HALF_EDGE]),
        op!([1, 0], [0, -1], Plus, [HALF_EDGE, 0]),
        op!([1, 0], [0, -1], Minus, [0, HALF_EDGE]),
        op!([-1, 0], [0, 1], Plus, [0, HALF_EDGE]),
        op!([-1, 0], [0, 1], Minus, [HALF_EDGE, 0]),
        op!([-1, 0], [0, -1], Plus, [HALF_EDGE, HALF_EDGE]),
        op!([-1, 0], [0, -1], Minus, [0, 0]),
    ],
};

pub(crate) const TYPE_40: LayerType = LayerType {
    number: 40,
    symbol: "pmam",
    centred: false,
    ops: &[
        op!([1, 0], [0, 1], Plus, [0, 0]),
        op!([1, 0], [0, 1], Minus, [0, 0]),
        op!([1, 0], [0, -1], Plus, [HALF_EDGE, 0]),
        op!([1, 0], [0, -1], Minus, [HALF_EDGE, 0]),
        op!([-1, 0], [0, 1], Plus, [0, 0]),
        op!([-1, 0], [0, 1], Minus, [0, 0]),
        op!([-1, 0], [0, -1], Plus, [HALF_EDGE, 0]),
        op!([-1, 0], [0, -1], Minus, [HALF_EDGE, 0]),
    ],
};

pub(crate) const TYPE_41: LayerType = LayerType {
    number: 41,
    symbol: "pmma",
    centred: false,
    ops: &[
        op!([1, 0], [0, 1], Plus, [0, 0]),
        op!([1, 0], [0, 1], Minus, [HALF_EDGE, 0]),
        op!([1, 0], [0, -1], Plus, [0, 0]),
        op!([1, 0], [0, -1], Minus, [HALF_EDGE, 0]),
        op!([-1, 0], [0, 1], Plus, [0, 0]),
        op!([-1, 0], [0, 1], Minus, [HALF_EDGE, 0]),
        op!([-1, 0], [0, -1], Plus, [0, 0]),
        op!([-1, 0], [0, -1], Minus, [HALF_EDGE, 0]),
    ],
};

pub(crate) const TYPE_42: LayerType = LayerType {
    number: 42,
    symbol: "pman",
    centred: false,
    ops: &[
        op!([1, 0], [0, 1], Plus, [0, 0]),
        op!([1, 0], [0, 1], Minus, [HALF_EDGE, HALF_EDGE]),
        op!([1, 0], [0, -1], Plus, [HALF_EDGE, 0]),
        op!([1, 0], [0, -1], Minus, [0, HALF_EDGE]),
        op!([-1, 0], [0, 1], Plus, [0, 0]),
        op!([-1, 0], [0, 1], Minus, [HALF_EDGE, HALF_EDGE]),
        op!([-1, 0], [0, -1], Plus, [HALF_EDGE, 0]),
        op!([-1, 0], [0, -1], Minus, [0, HALF_EDGE]),
    ],
};

pub(crate) const TYPE_43: LayerType = LayerType {
    number: 43,
    symbol: "pbaa",
    centred: false,
    ops: &[
        op!([1, 0], [0, 1], Plus, [0, 0]),
        op!([1, 0], [0, 1], Minus, [HALF_EDGE, 0]),
        op!([1, 0], [0, -1], Plus, [HALF_EDGE, 0]),
        op!([1, 0], [0, -1], Minus, [0, 0]),
        op!([-1, 0], [0, 1], Plus, [0, HALF_EDGE]),
        op!([-1, 0], [0, 1], Minus, [HALF_EDGE, HALF_EDGE]),
        op!([-1, 0], [0, -1], Plus, [HALF_EDGE, HALF_EDGE]),
        op!([-1, 0], [0, -1], Minus, [0, HALF_EDGE]),
    ],
};

pub(crate) const TYPE_44: LayerType = LayerType {
    number: 44,
    symbol: "pbam",
    centred: false,
    ops: &[
        op!([1, 0], [0, 1], Plus, [0, 0]),
        op!([1, 0], [0, 1], Minus, [0, 0]),
        op!([1, 0], [0, -1], Plus, [HALF_EDGE, 0]),
        op!([1, 0], [0, -1], Minus, [HALF_EDGE, 0]),
        op!([-1, 0], [0, 1], Plus, [0, HALF_EDGE]),
        op!([-1, 0], [0, 1], Minus, [0, HALF_EDGE]),
        op!([-1, 0], [0, -1], Plus, [HALF_EDGE, HALF_EDGE]),
        op!([-1, 0], [0, -1], Minus, [HALF_EDGE, HALF_EDGE]),
    ],
};

pub(crate) const TYPE_45: LayerType = LayerType {
    number: 45,
    symbol: "pbma",
    centred: false,
    ops: &[
        op!([1, 0], [0, 1], Plus, [0, 0]),
        op!([1, 0], [0, 1], Minus, [HALF_EDGE, 0]),
        op!([1, 0], [0, -1], Plus, [0, 0]),
        op!([1, 0], [0, -1], Minus, [HALF_EDGE, 0]),
        op!([-1, 0], [0, 1], Plus, [0, HALF_EDGE]),
        op!([-1, 0], [0, 1], Minus, [HALF_EDGE, HALF_EDGE]),
        op!([-1, 0], [0, -1], Plus, [0, HALF_EDGE]),
        op!([-1, 0], [0, -1], Minus, [HALF_EDGE, HALF_EDGE]),
    ],
};

pub(crate) const TYPE_46: LayerType = LayerType {
    number: 46,
    symbol: "pmmn",
    centred: false,
    ops: &[
        op!([1, 0], [0, 1], Plus, [0, 0]),
        op!([1, 0], [0, 1], Minus, [HALF_EDGE, HALF_EDGE]),
        op!([1, 0], [0, -1], Plus, [0, 0]),
        op!([1, 0], [0, -1], Minus, [HALF_EDGE, HALF_EDGE]),
        op!([-1, 0], [0, 1], Plus, [0, 0]),
        op!([-1, 0], [0, 1], Minus, [HALF_EDGE, HALF_EDGE]),
        op!([-1, 0], [0, -1], Plus, [0, 0]),
        op!([-1, 0], [0, -1], Minus, [HALF_EDGE, HALF_EDGE]),
    ],
};

pub(crate) const TYPE_47: LayerType = LayerType {
    number: 47,
    symbol: "cmmm",
    centred: true,
    ops: &[
        op!([1, 0], [0, 1], Plus, [0, 0]),
        op!([1, 0], [0, 1], Minus, [0, 0]),
        op!([1, 0], [0, -1], Plus, [0, 0]),
        op!([1, 0], [0, -1], Minus, [0, 0]),
        op!([-1, 0], [0, 1], Plus, [0, 0]),
        op!([-1, 0], [0, 1], Minus, [0, 0]),
        op!([-1, 0], [0, -1], Plus, [0, 0]),
        op!([-1, 0], [0, -1], Minus, [0, 0]),
    ],
};

pub(crate) const TYPE_48: LayerType = LayerType {
    number: 48,
    symbol: "cmme",
    centred: true,
    ops: &[
        op!([1, 0], [0, 1], Plus, [0, 0]),
        op!([1, 0], [0, 1], Minus, [0, HALF_EDGE]),
        op!([1, 0], [0, -1], Plus, [0, 0]),
        op!([1, 0], [0, -1], Minus, [0, HALF_EDGE]),
        op!([-1, 0], [0, 1], Plus, [0, 0]),
        op!([-1, 0], [0, 1], Minus, [0, HALF_EDGE]),
        op!([-1, 0], [0, -1], Plus, [0, 0]),
        op!([-1, 0], [0, -1], Minus, [0, HALF_EDGE]),
    ],
};
