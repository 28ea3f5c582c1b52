// The layer types of the oblique system, 1 to 7.
//
// Numbers and symbols are taken after International Tables, Volume E. The generators, and with them the origins, are
// this project's choice (`specs/Rows.antt`). The operations are what the generators and the lattice make, in order.
use crate::layer_type::LayerType;
use crate::operation::op;
use crate::shifts::HALF_EDGE;
use motions::{LayerMotion, Sign};

pub(crate) const TYPE_1: LayerType = LayerType {
    number: 1,
    symbol: "p1",
    centred: false,
    ops: &[op!([1, 0], [0, 1], Plus, [0, 0])],
};

pub(crate) const TYPE_2: LayerType = LayerType {
    number: 2,
    symbol: "p-1",
    centred: false,
    ops: &[
        op!([1, 0], [0, 1], Plus, [0, 0]),
        op!([-1, 0], [0, -1], Minus, [0, 0]),
    ],
};

pub(crate) const TYPE_3: LayerType = LayerType {
    number: 3,
    symbol: "p112",
    centred: false,
    ops: &[
        op!([1, 0], [0, 1], Plus, [0, 0]),
        op!([-1, 0], [0, -1], Plus, [0, 0]),
    ],
};

pub(crate) const TYPE_4: LayerType = LayerType {
    number: 4,
    symbol: "p11m",
    centred: false,
    ops: &[
        op!([1, 0], [0, 1], Plus, [0, 0]),
        op!([1, 0], [0, 1], Minus, [0, 0]),
    ],
};

pub(crate) const TYPE_5: LayerType = LayerType {
    number: 5,
    symbol: "p11a",
    centred: false,
    ops: &[
        op!([1, 0], [0, 1], Plus, [0, 0]),
        op!([1, 0], [0, 1], Minus, [HALF_EDGE, 0]),
    ],
};

pub(crate) const TYPE_6: LayerType = LayerType {
    number: 6,
    symbol: "p112/m",
    centred: false,
    ops: &[
        op!([1, 0], [0, 1], Plus, [0, 0]),
        op!([1, 0], [0, 1], Minus, [0, 0]),
        op!([-1, 0], [0, -1], Plus, [0, 0]),
        op!([-1, 0], [0, -1], Minus, [0, 0]),
    ],
};

pub(crate) const TYPE_7: LayerType = LayerType {
    number: 7,
    symbol: "p112/a",
    centred: false,
    ops: &[
        op!([1, 0], [0, 1], Plus, [0, 0]),
        op!([1, 0], [0, 1], Minus, [HALF_EDGE, 0]),
        op!([-1, 0], [0, -1], Plus, [HALF_EDGE, 0]),
        op!([-1, 0], [0, -1], Minus, [0, 0]),
    ],
};
