// Inputs that are refused since what they list is no group within the limits.
use crate::case::Case;

/// Inputs that are refused since what they list is no group within the limits.
pub(crate) fn all() -> &'static [Case] {
    &CASES
}

static CASES: [Case; 6] = [
    Case {
        name: "an empty input",
        words: &["layers", "0", "0", "1"],
        input: b"",
        output: b"",
        complaints: b"refused: no identity\n",
        status: 1,
    },
    Case {
        name: "a lattice too fine",
        words: &[
            "layers", "0", "0", "1", "--frame", "1/4,0,0", "0,1/4,0", "0,0,1/4",
        ],
        input: b"(1/4,0,0)+ (0,1/4,0)+ (0,0,1/4)+\nx,y,z\n(1/8,0,0)+\n",
        output: b"",
        complaints: b"refused: lattice too fine\n",
        status: 1,
    },
    Case {
        name: "a fourfold axis across a centring along a alone",
        words: &["layers", "0", "0", "1"],
        input: b"(1/2,0,0)+\nx,y,z\n-y,x,z\n-x,-y,z\ny,-x,z\n",
        output: b"",
        complaints: b"refused: operation 2 moves the lattice\n",
        status: 1,
    },
    Case {
        name: "a fourfold rotation without its square",
        words: &["layers", "0", "0", "1"],
        input: b"x,y,z\n-y,x,z\n",
        output: b"",
        complaints: b"refused: product of 2 and 2 missing\n",
        status: 1,
    },
    Case {
        name: "two twofold axes without the translation between them",
        words: &["layers", "0", "0", "1"],
        input: b"x,y,z\n-x,-y,z\n-x+1/2,-y,z\n",
        output: b"",
        complaints: b"refused: product of 2 and 3 missing\n",
        status: 1,
    },
    Case {
        name: "a projection onto a plane",
        words: &["layers", "0", "0", "1"],
        input: b"x,y,z\nx,y,0\n",
        output: b"",
        complaints: b"refused: operation 2 has no inverse\n",
        status: 1,
    },
];
