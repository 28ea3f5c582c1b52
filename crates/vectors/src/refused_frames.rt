// Frames that are refused.
use crate::case::Case;
use crate::inputs::{C2M, INVERSION};

/// Frames that are refused.
pub(crate) fn all() -> &'static [Case] {
    &CASES
}

static CASES: [Case; 5] = [
    Case {
        name: "the cell edges are no frame of (010)",
        words: &["layers", "0", "1", "0"],
        input: INVERSION,
        output: b"",
        complaints: b"refused: no frame\n",
        status: 1,
    },
    Case {
        name: "the cell edges are no basis of a centred lattice",
        words: &["layers", "0", "0", "1"],
        input: C2M,
        output: b"",
        complaints: b"refused: no frame\n",
        status: 1,
    },
    Case {
        name: "a left-handed frame",
        words: &[
            "layers", "0", "0", "1", "--frame", "0,1,0", "1,0,0", "0,0,1",
        ],
        input: INVERSION,
        output: b"",
        complaints: b"refused: no frame\n",
        status: 1,
    },
    Case {
        name: "a frame with a doubled edge",
        words: &[
            "layers", "0", "0", "1", "--frame", "2,0,0", "0,1,0", "0,0,1",
        ],
        input: INVERSION,
        output: b"",
        complaints: b"refused: no frame\n",
        status: 1,
    },
    Case {
        name: "a frame one step too skewed",
        words: &[
            "layers", "0", "0", "1", "--frame", "1,0,0", "251,1,0", "0,0,1",
        ],
        input: b"x,y,z\n-x,y,-z\n",
        output: b"",
        complaints: b"refused: frame too skewed\n",
        status: 1,
    },
];
