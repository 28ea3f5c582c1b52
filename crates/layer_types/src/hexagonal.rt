// The layer types of the hexagonal system, 65 to 80.
//
// Numbers and symbols are taken after International Tables, Volume E. The generators, and with them the origins, are
// this project's choice (`specs/Rows.antt`). The operations are what the generators and the lattice make, in order.
use crate::layer_type::LayerType;
use crate::operation::op;
use motions::{LayerMotion, Sign};

pub(crate) const TYPE_65: LayerType = LayerType {
    number: 65,
    symbol: "p3",
    centred: false,
    ops: &[
        op!([1, 0], [0, 1], Plus, [0, 0]),
        op!([0, -1], [1, -1], Plus, [0, 0]),
        op!([-1, 1], [-1, 0], Plus, [0, 0]),
    ],
};

pub(crate) const TYPE_66: LayerType = LayerType {
    number: 66,
    symbol: "p-3",
    centred: false,
    ops: &[
        op!([1, 0], [0, 1], Plus, [0, 0]),
        op!([1, -1], [1, 0], Minus, [0, 0]),
        op!([0, 1], [-1, 1], Minus, [0, 0]),
        op!([0, -1], [1, -1], Plus, [0, 0]),
        op!([-1, 1], [-1, 0], Plus, [0, 0]),
        op!([-1, 0], [0, -1], Minus, [0, 0]),
    ],
};

pub(crate) const TYPE_67: LayerType = LayerType {
    number: 67,
    symbol: "p312",
    centred: false,
    ops: &[
        op!([1, 0], [0, 1], Plus, [0, 0]),
        op!([1, 0], [1, -1], Minus, [0, 0]),
        op!([0, -1], [1, -1], Plus, [0, 0]),
        op!([0, -1], [-1, 0], Minus, [0, 0]),
        op!([-1, 1], [0, 1], Minus, [0, 0]),
        op!([-1, 1], [-1, 0], Plus, [0, 0]),
    ],
};

pub(crate) const TYPE_68: LayerType = LayerType {
    number: 68,
    symbol: "p321",
    centred: false,
    ops: &[
        op!([1, 0], [0, 1], Plus, [0, 0]),
        op!([1, -1], [0, -1], Minus, [0, 0]),
        op!([0, 1], [1, 0], Minus, [0, 0]),
        op!([0, -1], [1, -1], Plus, [0, 0]),
        op!([-1, 1], [-1, 0], Plus, [0, 0]),
        op!([-1, 0], [-1, 1], Minus, [0, 0]),
    ],
};

pub(crate) const TYPE_69: LayerType = LayerType {
    number: 69,
    symbol: "p3m1",
    centred: false,
    ops: &[
        op!([1, 0], [0, 1], Plus, [0, 0]),
        op!([1, 0], [1, -1], Plus, [0, 0]),
        op!([0, -1], [1, -1], Plus, [0, 0]),
        op!([0, -1], [-1, 0], Plus, [0, 0]),
        op!([-1, 1], [0, 1], Plus, [0, 0]),
        op!([-1, 1], [-1, 0], Plus, [0, 0]),
    ],
};

pub(crate) const TYPE_70: LayerType = LayerType {
    number: 70,
    symbol: "p31m",
    centred: false,
    ops: &[
        op!([1, 0], [0, 1], Plus, [0, 0]),
        op!([1, -1], [0, -1], Plus, [0, 0]),
        op!([0, 1], [1, 0], Plus, [0, 0]),
        op!([0, -1], [1, -1], Plus, [0, 0]),
        op!([-1, 1], [-1, 0], Plus, [0, 0]),
        op!([-1, 0], [-1, 1], Plus, [0, 0]),
    ],
};

pub(crate) const TYPE_71: LayerType = LayerType {
    number: 71,
    symbol: "p-31m",
    centred: false,
    ops: &[
        op!([1, 0], [0, 1], Plus, [0, 0]),
        op!([1, 0], [1, -1], Minus, [0, 0]),
        op!([1, -1], [1, 0], Minus, [0, 0]),
        op!([1, -1], [0, -1], Plus, [0, 0]),
        op!([0, 1], [1, 0], Plus, [0, 0]),
        op!([0, 1], [-1, 1], Minus, [0, 0]),
        op!([0, -1], [1, -1], Plus, [0, 0]),
        op!([0, -1], [-1, 0], Minus, [0, 0]),
        op!([-1, 1], [0, 1], Minus, [0, 0]),
        op!([-1, 1], [-1, 0], Plus, [0, 0]),
        op!([-1, 0], [0, -1], Minus, [0, 0]),
        op!([-1, 0], [-1, 1], Plus, [0, 0]),
    ],
};

pub(crate) const TYPE_72: LayerType = LayerType {
    number: 72,
    symbol: "p-3m1",
    centred: false,
    ops: &[
        op!([1, 0], [0, 1], Plus, [0, 0]),
        op!([1, 0], [1, -1], Plus, [0, 0]),
        op!([1, -1], [1, 0], Minus, [0, 0]),
        op!([1, -1], [0, -1], Minus, [0, 0]),
        op!([0, 1], [1, 0], Minus, [0, 0]),
        op!([0, 1], [-1, 1], Minus, [0, 0]),
        op!([0, -1], [1, -1], Plus, [0, 0]),
        op!([0, -1], [-1, 0], Plus, [0, 0]),
        op!([-1, 1], [0, 1], Plus, [0, 0]),
        op!([-1, 1], [-1, 0], Plus, [0, 0]),
        op!([-1, 0], [0, -1], Minus, [0, 0]),
        op!([-1, 0], [-1, 1], Minus, [0, 0]),
    ],
};

pub(crate) const TYPE_73: LayerType = LayerType {
    number: 73,
    symbol: "p6",
    centred: false,
    ops: &[
        op!([1, 0], [0, 1], Plus, [0, 0]),
        op!([1, -1], [1, 0], Plus, [0, 0]),
        op!([0, 1], [-1, 1], Plus, [0, 0]),
        op!([0, -1], [1, -1], Plus, [0, 0]),
        op!([-1, 1], [-1, 0], Plus, [0, 0]),
        op!([-1, 0], [0, -1], Plus, [0, 0]),
    ],
};

pub(crate) const TYPE_74: LayerType = LayerType {
    number: 74,
    symbol: "p-6",
    centred: false,
    ops: &[
        op!([1, 0], [0, 1], Plus, [0, 0]),
        op!([1, 0], [0, 1], Minus, [0, 0]),
        op!([0, -1], [1, -1], Plus, [0, 0]),
        op!([0, -1], [1, -1], Minus, [0, 0]),
        op!([-1, 1], [-1, 0], Plus, [0, 0]),
        op!([-1, 1], [-1, 0], Minus, [0, 0]),
    ],
};

pub(crate) const TYPE_75: LayerType = LayerType {
    number: 75,
    symbol: "p6/m",
    centred: false,
    ops: &[
        op!([1, 0], [0, 1], Plus, [0, 0]),
        op!([1, 0], [0, 1], Minus, [0, 0]),
        op!([1, -1], [1, 0], Plus, [0, 0]),
        op!([1, -1], [1, 0], Minus, [0, 0]),
        op!([0, 1], [-1, 1], Plus, [0, 0]),
        op!([0, 1], [-1, 1], Minus, [0, 0]),
        op!([0, -1], [1, -1], Plus, [0, 0]),
        op!([0, -1], [1, -1], Minus, [0, 0]),
        op!([-1, 1], [-1, 0], Plus, [0, 0]),
        op!([-1, 1], [-1, 0], Minus, [0, 0]),
        op!([-1, 0], [0, -1], Plus, [0, 0]),
        op!([-1, 0], [0, -1], Minus, [0, 0]),
    ],
};

pub(crate) const TYPE_76: LayerType = LayerType {
    number: 76,
    symbol: "p622",
    centred: false,
    ops: &[
        op!([1, 0], [0, 1], Plus, [0, 0]),
        op!([1, 0], [1, -1], Minus, [0, 0]),
        op!([1, -1], [1, 0], Plus, [0, 0]),
        op!([1, -1], [0, -1], Minus, [0, 0]),
        op!([0, 1], [1, 0], Minus, [0, 0]),
        op!([0, 1], [-1, 1], Plus, [0, 0]),
        op!([0, -1], [1, -1], Plus, [0, 0]),
        op!([0, -1], [-1, 0], Minus, [0, 0]),
        op!([-1, 1], [0, 1], Minus, [0, 0]),
        op!([-1, 1], [-1, 0], Plus, [0, 0]),
        op!([-1, 0], [0, -1], Plus, [0, 0]),
        op!([-1, 0], [-1, 1], Minus, [0, 0]),
    ],
};

pub(crate) const TYPE_77: LayerType = LayerType {
    number: 77,
    symbol: "p6mm",
    centred: false,
    ops: &[
        op!([1, 0], [0, 1], Plus, [0, 0]),
        op!([1, 0], [1, -1], Plus, [0, 0]),
        op!([1, -1], [1, 0], Plus, [0, 0]),
        op!([1, -1], [0, -1], Plus, [0, 0]),
        op!([0, 1], [1, 0], Plus, [0, 0]),
        op!([0, 1], [-1, 1], Plus, [0, 0]),
        op!([0, -1], [1, -1], Plus, [0, 0]),
        op!([0, -1], [-1, 0], Plus, [0, 0]),
        op!([-1, 1], [0, 1], Plus, [0, 0]),
        op!([-1, 1], [-1, 0], Plus, [0, 0]),
        op!([-1, 0], [0, -1], Plus, [0, 0]),
        op!([-1, 0], [-1, 1], Plus, [0, 0]),
    ],
};

pub(crate) const TYPE_78: LayerType = LayerType {
    number: 78,
    symbol: "p-6m2",
    centred: false,
    ops: &[
        op!([1, 0], [0, 1], Plus, [0, 0]),
        op!([1, 0], [1, -1], Plus, [0, 0]),
        op!([1, 0], [1, -1], Minus, [0, 0]),
        op!([1, 0], [0, 1], Minus, [0, 0]),
        op!([0, -1], [1, -1], Plus, [0, 0]),
        op!([0, -1], [1, -1], Minus, [0, 0]),
        op!([0, -1], [-1, 0], Plus, [0, 0]),
        op!([0, -1], [-1, 0], Minus, [0, 0]),
        op!([-1, 1], [0, 1], Plus, [0, 0]),
        op!([-1, 1], [0, 1], Minus, [0, 0]),
        op!([-1, 1], [-1, 0], Plus, [0, 0]),
        op!([-1, 1], [-1, 0], Minus, [0, 0]),
    ],
};

pub(crate) const TYPE_79: LayerType = LayerType {
    number: 79,
    symbol: "p-62m",
    centred: false,
    ops: &[
        op!([1, 0], [0, 1], Plus, [0, 0]),
        op!([1, 0], [0, 1], Minus, [0, 0]),
        op!([1, -1], [0, -1], Plus, [0, 0]),
        op!([1, -1], [0, -1], Minus, [0, 0]),
        op!([0, 1], [1, 0], Plus, [0, 0]),
        op!([0, 1], [1, 0], Minus, [0, 0]),
        op!([0, -1], [1, -1], Plus, [0, 0]),
        op!([0, -1], [1, -1], Minus, [0, 0]),
        op!([-1, 1], [-1, 0], Plus, [0, 0]),
        op!([-1, 1], [-1, 0], Minus, [0, 0]),
        op!([-1, 0], [-1, 1], Plus, [0, 0]),
        op!([-1, 0], [-1, 1], Minus, [0, 0]),
    ],
};

pub(crate) const TYPE_80: LayerType = LayerType {
    number: 80,
    symbol: "p6/mmm",
    centred: false,
    ops: &[
        op!([1, 0], [0, 1], Plus, [0, 0]),
        op!([1, 0], [1, -1], Plus, [0, 0]),
        op!([1, 0], [1, -1], Minus, [0, 0]),
        op!([1, 0], [0, 1], Minus, [0, 0]),
        op!([1, -1], [1, 0], Plus, [0, 0]),
        op!([1, -1], [1, 0], Minus, [0, 0]),
        op!([1, -1], [0, -1], Plus, [0, 0]),
        op!([1, -1], [0, -1], Minus, [0, 0]),
        op!([0, 1], [1, 0], Plus, [0, 0]),
        op!([0, 1], [1, 0], Minus, [0, 0]),
        op!([0, 1], [-1, 1], Plus, [0, 0]),
        op!([0, 1], [-1, 1], Minus, [0, 0]),
        op!([0, -1], [1, -1], Plus, [0, 0]),
        op!([0, -1], [1, -1], Minus, [0, 0]),
        op!([0, -1], [-1, 0], Plus, [0, 0]),
        op!([0, -1], [-1, 0], Minus, [0, 0]),
        op!([-1, 1], [0, 1], Plus, [0, 0]),
        op!([-1, 1], [0, 1], Minus, [0, 0]),
        op!([-1, 1], [-1, 0], Plus, [0, 0]),
        op!([-1, 1], [-1, 0], Minus, [0, 0]),
        op!([-1, 0], [0, -1], Plus, [0, 0]),
        op!([-1, 0], [0, -1], Minus, [0, 0]),
        op!([-1, 0], [-1, 1], Plus, [0, 0]),
        op!([-1, 0], [-1, 1], Minus, [0, 0]),
    ],
};
