// The layer types of the rectangular system, 8 to 36: the point groups 2, m, 2/m, 222 and mm2.
//
// Numbers and symbols are taken after International Tables, Volume E. The generators, and with them the origins, are
// this project's choice (`specs/Rows.antt`). The operations are what the generators and the lattice make, in order.
use crate::layer_type::LayerType;
use crate::operation::op;
use crate::shifts::HALF_EDGE;
use motions::{LayerMotion, Sign};

pub(crate) const TYPE_8: LayerType = LayerType {
    number: 8,
    symbol: "p211",
    centred: false,
    ops: &[
        op!([1, 0], [0, 1], Plus, [0, 0]),
        op!([1, 0], [0, -1], Minus, [0, 0]),
    ],
};

pub(crate) const TYPE_9: LayerType = LayerType {
    number: 9,
    symbol: "p2_111",
    centred: false,
    ops: &[
        op!([1, 0], [0, 1], Plus, [0, 0]),
        op!([1, 0], [0, -1], Minus, [HALF_EDGE, 0]),
    ],
};

pub(crate) const TYPE_10: LayerType = LayerType {
    number: 10,
    symbol: "c211",
    centred: true,
    ops: &[
        op!([1, 0], [0, 1], Plus, [0, 0]),
        op!([1, 0], [0, -1], Minus, [0, 0]),
    ],
};

pub(crate) const TYPE_11: LayerType = LayerType {
    number: 11,
    symbol: "pm11",
    centred: false,
    ops: &[
        op!([1, 0], [0, 1], Plus, [0, 0]),
        op!([-1, 0], [0, 1], Plus, [0, 0]),
    ],
};

pub(crate) const TYPE_12: LayerType = LayerType {
    number: 12,
    symbol: "pb11",
    centred: false,
    ops: &[
        op!([1, 0], [0, 1], Plus, [0, 0]),
        op!([-1, 0], [0, 1], Plus, [0, HALF_EDGE]),
    ],
};

pub(crate) const TYPE_13: LayerType = LayerType {
    number: 13,
    symbol: "cm11",
    centred: true,
    ops: &[
        op!([1, 0], [0, 1], Plus, [0, 0]),
        op!([-1, 0], [0, 1], Plus, [0, 0]),
    ],
};

pub(crate) const TYPE_14: LayerType = LayerType {
    number: 14,
    symbol: "p2/m11",
    centred: false,
    ops: &[
        op!([1, 0], [0, 1], Plus, [0, 0]),
        op!([1, 0], [0, -1], Minus, [0, 0]),
        op!([-1, 0], [0, 1], Plus, [0, 0]),
        op!([-1, 0], [0, -1], Minus, [0, 0]),
    ],
};

pub(crate) const TYPE_15: LayerType = LayerType {
    number: 15,
    symbol: "p2_1/m11",
    centred: false,
    ops: &[
        op!([1, 0], [0, 1], Plus, [0, 0]),
        op!([1, 0], [0, -1], Minus, [HALF_EDGE, 0]),
        op!([-1, 0], [0, 1], Plus, [HALF_EDGE, 0]),
        op!([-1, 0], [0, -1], Minus, [0, 0]),
    ],
};

pub(crate) const TYPE_16: LayerType = LayerType {
    number: 16,
    symbol: "p2/b11",
    centred: false,
    ops: &[
        op!([1, 0], [0, 1], Plus, [0, 0]),
        op!([1, 0], [0, -1], Minus, [0, HALF_EDGE]),
        op!([-1, 0], [0, 1], Plus, [0, HALF_EDGE]),
        op!([-1, 0], [0, -1], Minus, [0, 0]),
    ],
};

pub(crate) const TYPE_17: LayerType = LayerType {
    number: 17,
    symbol: "p2_1/b11",
    centred: false,
    ops: &[
        op!([1, 0], [0, 1], Plus, [0, 0]),
        op!([1, 0], [0, -1], Minus, [HALF_EDGE, HALF_EDGE]),
        op!([-1, 0], [0, 1], Plus, [HALF_EDGE, HALF_EDGE]),
        op!([-1, 0], [0, -1], Minus, [0, 0]),
    ],
};

pub(crate) const TYPE_18: LayerType = LayerType {
    number: 18,
    symbol: "c2/m11",
    centred: true,
    ops: &[
        op!([1, 0], [0, 1], Plus, [0, 0]),
        op!([1, 0], [0, -1], Minus, [0, 0]),
        op!([-1, 0], [0, 1], Plus, [0, 0]),
        op!([-1, 0], [0, -1], Minus, [0, 0]),
    ],
};

pub(crate) const TYPE_19: LayerType = LayerType {
    number: 19,
    symbol: "p222",
    centred: false,
    ops: &[
        op!([1, 0], [0, 1], Plus, [0, 0]),
        op!([1, 0], [0, -1], Minus, [0, 0]),
        op!([-1, 0], [0, 1], Minus, [0, 0]),
        op!([-1, 0], [0, -1], Plus, [0, 0]),
    ],
};

pub(crate) const TYPE_20: LayerType = LayerType {
    number: 20,
    symbol: "p2_122",
    centred: false,
    ops: &[
        op!([1, 0], [0, 1], Plus, [0, 0]),
        op!([1, 0], [0, -1], Minus, [HALF_EDGE, 0]),
        op!([-1, 0], [0, 1], Minus, [0, 0]),
        op!([-1, 0], [0, -1], Plus, [HALF_EDGE, 0]),
    ],
};

pub(crate) const TYPE_21: LayerType = LayerType {
    number: 21,
    symbol: "p2_12_12",
    centred: false,
    ops: &[
        op!([1, 0], [0, 1], Plus, [0, 0]),
        op!([1, 0], [0, -1], Minus, [HALF_EDGE, HALF_EDGE]),
        op!([-1, 0], [0, 1], Minus, [HALF_EDGE, HALF_EDGE]),
        op!([-1, 0], [0, -1], Plus, [0, 0]),
    ],
};

pub(crate) const TYPE_22: LayerType = LayerType {
    number: 22,
    symbol: "c222",
    centred: true,
    ops: &[
        op!([1, 0], [0, 1], Plus, [0, 0]),
        op!([1, 0], [0, -1], Minus, [0, 0]),
        op!([-1, 0], [0, 1], Minus, [0, 0]),
        op!([-1, 0], [0, -1], Plus, [0, 0]),
    ],
};

pub(crate) const TYPE_23: LayerType = LayerType {
    number: 23,
    symbol: "pmm2",
    centred: false,
    ops: &[
        op!([1, 0], [0, 1], Plus, [0, 0]),
        op!([1, 0], [0, -1], Plus, [0, 0]),
        op!([-1, 0], [0, 1], Plus, [0, 0]),
        op!([-1, 0], [0, -1], Plus, [0, 0]),
    ],
};

pub(crate) const TYPE_24: LayerType = LayerType {
    number: 24,
    symbol: "pma2",
    centred: false,
    ops: &[
        op!([1, 0], [0, 1], Plus, [0, 0]),
        op!([1, 0], [0, -1], Plus, [HALF_EDGE, 0]),
        op!([-1, 0], [0, 1], Plus, [HALF_EDGE, 0]),
        op!([-1, 0], [0, -1], Plus, [0, 0]),
    ],
};

pub(crate) const TYPE_25: LayerType = LayerType {
    number: 25,
    symbol: "pba2",
    centred: false,
    ops: &[
        op!([1, 0], [0, 1], Plus, [0, 0]),
        op!([1, 0], [0, -1], Plus, [HALF_EDGE, HALF_EDGE]),
        op!([-1, 0], [0, 1], Plus, [HALF_EDGE, HALF_EDGE]),
        op!([-1, 0], [0, -1], Plus, [0, 0]),
    ],
};

pub(crate) const TYPE_26: LayerType = LayerType {
    number: 26,
    symbol: "cmm2",
    centred: true,
    ops: &[
        op!([1, 0], [0, 1], Plus, [0, 0]),
        op!([1, 0], [0, -1], Plus, [0, 0]),
        op!([-1, 0], [0, 1], Plus, [0, 0]),
        op!([-1, 0], [0, -1], Plus, [0, 0]),
    ],
};

pub(crate) const TYPE_27: LayerType = LayerType {
    number: 27,
    symbol: "pm2m",
    centred: false,
    ops: &[
        op!([1, 0], [0, 1], Plus, [0, 0]),
        op!([1, 0], [0, 1], Minus, [0, 0]),
        op!([-1, 0], [0, 1], Plus, [0, 0]),
        op!([-1, 0], [0, 1], Minus, [0, 0]),
    ],
};

pub(crate) const TYPE_28: LayerType = LayerType {
    number: 28,
    symbol: "pm2_1b",
    centred: false,
    ops: &[
        op!([1, 0], [0, 1], Plus, [0, 0]),
        op!([1, 0], [0, 1], Minus, [0, HALF_EDGE]),
        op!([-1, 0], [0, 1], Plus, [0, 0]),
        op!([-1, 0], [0, 1], Minus, [0, HALF_EDGE]),
    ],
};

pub(crate) const TYPE_29: LayerType = LayerType {
    number: 29,
    symbol: "pb2_1m",
    centred: false,
    ops: &[
        op!([1, 0], [0, 1], Plus, [0, 0]),
        op!([1, 0], [0, 1], Minus, [0, 0]),
        op!([-1, 0], [0, 1], Plus, [0, HALF_EDGE]),
        op!([-1, 0], [0, 1], Minus, [0, HALF_EDGE]),
    ],
};

pub(crate) const TYPE_30: LayerType = LayerType {
    number: 30,
    symbol: "pb2b",
    centred: false,
    ops: &[
        op!([1, 0], [0, 1], Plus, [0, 0]),
        op!([1, 0], [0, 1], Minus, [0, HALF_EDGE]),
        op!([-1, 0], [0, 1], Plus, [0, HALF_EDGE]),
        op!([-1, 0], [0, 1], Minus, [0, 0]),
    ],
};

pub(crate) const TYPE_31: LayerType = LayerType {
    number: 31,
    symbol: "pm2a",
    centred: false,
    ops: &[
        op!([1, 0], [0, 1], Plus, [0, 0]),
        op!([1, 0], [0, 1], Minus, [HALF_EDGE, 0]),
        op!([-1, 0], [0, 1], Plus, [0, 0]),
        op!([-1, 0], [0, 1], Minus, [HALF_EDGE, 0]),
    ],
};

pub(crate) const TYPE_32: LayerType = LayerType {
    number: 32,
    symbol: "pm2_1n",
    centred: false,
    ops: &[
        op!([1, 0], [0, 1], Plus, [0, 0]),
        op!([1, 0], [0, 1], Minus, [HALF_EDGE, HALF_EDGE]),
        op!([-1, 0], [0, 1], Plus, [0, 0]),
        op!([-1, 0], [0, 1], Minus, [HALF_EDGE, HALF_EDGE]),
    ],
};

pub(crate) const TYPE_33: LayerType = LayerType {
    number: 33,
    symbol: "pb2_1a",
    centred: false,
    ops: &[
        op!([1, 0], [0, 1], Plus, [0, 0]),
        op!([1, 0], [0, 1], Minus, [HALF_EDGE, 0]),
        op!([-1, 0], [0, 1], Plus, [0, HALF_EDGE]),
        op!([-1, 0], [0, 1], Minus, [HALF_EDGE, HALF_EDGE]),
    ],
};

pub(crate) const TYPE_34: LayerType = LayerType {
    number: 34,
    symbol: "pb2n",
    centred: false,
    ops: &[
        op!([1, 0], [0, 1], Plus, [0, 0]),
        op!([1, 0], [0, 1], Minus, [HALF_EDGE, HALF_EDGE]),
        op!([-1, 0], [0, 1], Plus, [0, HALF_EDGE]),
        op!([-1, 0], [0, 1], Minus, [HALF_EDGE, 0]),
    ],
};

pub(crate) const TYPE_35: LayerType = LayerType {
    number: 35,
    symbol: "cm2m",
    centred: true,
    ops: &[
        op!([1, 0], [0, 1], Plus, [0, 0]),
        op!([1, 0], [0, 1], Minus, [0, 0]),
        op!([-1, 0], [0, 1], Plus, [0, 0]),
        op!([-1, 0], [0, 1], Minus, [0, 0]),
    ],
};

pub(crate) const TYPE_36: LayerType = LayerType {
    number: 36,
    symbol: "cm2e",
    centred: true,
    ops: &[
        op!([1, 0], [0, 1], Plus, [0, 0]),
        op!([1, 0], [0, 1], Minus, [0, HALF_EDGE]),
        op!([-1, 0], [0, 1], Plus, [0, 0]),
        op!([-1, 0], [0, 1], Minus, [0, HALF_EDGE]),
    ],
};
