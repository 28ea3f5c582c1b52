// Reports of groups from generators, and such texts that are refused.
use crate::case::Case;
use crate::inputs::{FOURFOLD_SCREW_REPORT, IDENTITY_REPORT, INVERSION_REPORT};

/// Reports of groups from generators, and such texts that are refused.
pub(crate) fn all() -> &'static [Case] {
    &CASES
}

static CASES: [Case; 9] = [
    Case {
        name: "P-1 from the inversion",
        words: &["layers", "0", "0", "1"],
        input: b"generators\n-x,-y,-z\n",
        output: INVERSION_REPORT,
        complaints: b"",
        status: 0,
    },
    Case {
        name: "P1 from no generator",
        words: &["layers", "0", "0", "1"],
        input: b"generators\n",
        output: IDENTITY_REPORT,
        complaints: b"",
        status: 0,
    },
    Case {
        name: "P4_1 from a fourfold screw",
        words: &["layers", "0", "0", "1"],
        input: b"generators\n-y,x,z+1/4\n",
        output: FOURFOLD_SCREW_REPORT,
        complaints: b"",
        status: 0,
    },
    Case {
        name: "two inversions centre the cell",
        words: &[
            "layers", "0", "0", "1", "--frame", "1/2,0,0", "0,1,0", "0,0,1",
        ],
        input: b"generators\n-x,-y,-z\n-x+1/2,-y,-z\n",
        output: b"plane 0 0 1\n\
            period 1\n\
            a 1/2,0,0\n\
            b 0,1,0\n\
            tau 0,0,1\n\
            c 0,0,1\n\
            general planes 2\n\
            type 1 p1\n\
            basis 1/2,0,0 0,1,0 0,0,1\n\
            origin 0,0,0 + s/d c\n\
            op x,y,z\n\
            height 0 orbit 1\n\
            type 2 p-1\n\
            basis 1/2,0,0 0,1,0 0,0,1\n\
            origin 0,0,0\n\
            op x,y,z\n\
            op -x,-y,-z\n\
            height 1/2 orbit 2\n\
            type 2 p-1\n\
            basis 1/2,0,0 0,1,0 0,0,1\n\
            origin 0,0,1/2\n\
            op x,y,z\n\
            op -x,-y,-z+1\n\
            end\n",
        complaints: b"",
        status: 0,
    },
    Case {
        name: "Pnma from three generators",
        words: &[
            "layers", "0", "1", "0", "--frame", "1,0,0", "0,0,-1", "0,1,0",
        ],
        input: b"generators\n-x+1/2,-y,z+1/2\n-x,y+1/2,-z\n-x,-y,-z\n",
        output: b"plane 0 1 0\n\
            period 1\n\
            a 1,0,0\n\
            b 0,0,-1\n\
            tau 0,1,0\n\
            c 0,1,0\n\
            general planes 4\n\
            type 12 pb11\n\
            basis 0,0,-1 1,0,0 0,-1,0\n\
            origin 0,0,-1/4 + s/d c\n\
            op x,y,z\n\
            op x+1/2,y,-z-1/2\n\
            height 0 orbit 1\n\
            type 17 p2_1/b11\n\
            basis 0,0,-1 1,0,0 0,-1,0\n\
            origin 0,0,0\n\
            op x,y,z\n\
            op x+1/2,y,-z-1/2\n\
            op -x+1/2,-y,z-1/2\n\
            op -x,-y,-z\n\
            height 1/4 orbit 2\n\
            type 29 pb2_1m\n\
            basis 0,0,-1 1,0,0 0,-1,0\n\
            origin 0,1/4,-1/4\n\
            op x,y,z\n\
            op x+1/2,y,-z-1/2\n\
            op x,-y+1/2,z\n\
            op x+1/2,-y+1/2,-z-1/2\n\
            height 1/2 orbit 1\n\
            type 17 p2_1/b11\n\
            basis 0,0,-1 1,0,0 0,-1,0\n\
            origin 0,1/2,0\n\
            op x,y,z\n\
            op x+1/2,y,-z-1/2\n\
            op -x+1/2,-y+1,z-1/2\n\
            op -x,-y+1,-z\n\
            height 3/4 orbit 2\n\
            type 29 pb2_1m\n\
            basis 0,0,-1 1,0,0 0,-1,0\n\
            origin 0,3/4,-1/4\n\
            op x,y,z\n\
            op x+1/2,y,-z-1/2\n\
            op x,-y+3/2,z\n\
            op x+1/2,-y+3/2,-z-1/2\n\
            end\n",
        complaints: b"",
        status: 0,
    },
    Case {
        name: "a generator of infinitely many matrices",
        words: &["layers", "0", "0", "1"],
        input: b"generators\nx+y,y,z\n",
        output: b"",
        complaints: b"refused: too many or too large matrices\n",
        status: 1,
    },
    Case {
        name: "a generator without an inverse",
        words: &["layers", "0", "0", "1"],
        input: b"generators\nx,y,0\n",
        output: b"",
        complaints: b"refused: operation 1 has no inverse\n",
        status: 1,
    },
    Case {
        name: "generators of too fine a lattice",
        words: &["layers", "0", "0", "1"],
        input: b"generators\nx+1/24,y,z\nx,y+1/24,z\n",
        output: b"",
        complaints: b"refused: lattice too fine\n",
        status: 1,
    },
    Case {
        name: "the word ends too early",
        words: &["layers", "0", "0", "1"],
        input: b"gene\n",
        output: b"",
        complaints: b"refused: line 1 column 5 missing-part\n",
        status: 1,
    },
];
