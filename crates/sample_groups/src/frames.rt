// Vectors that frames of the groups are made of.
use crate::shifts::{EDGE, HALF, NONE};
use fractions::{Part, UNIT};
use motions::Basis;

/// a, b and c: for (001).
pub fn cell_edges() -> Basis {
    Basis {
        a: [EDGE, NONE, NONE],
        b: [NONE, EDGE, NONE],
        tau: [NONE, NONE, EDGE],
    }
}

/// a, -c and b: for (010).
pub fn edges_along_b() -> Basis {
    Basis {
        a: [EDGE, NONE, NONE],
        b: [NONE, NONE, Part(-UNIT)],
        tau: [NONE, EDGE, NONE],
    }
}

/// a, -c and -1/2,1/2,0: for (010) of C2/m.
pub fn c2_over_m_edges() -> Basis {
    Basis {
        a: [EDGE, NONE, NONE],
        b: [NONE, NONE, Part(-UNIT)],
        tau: [Part(-UNIT / 2), HALF, NONE],
    }
}
