// Reports of all heights of an orientation.
use crate::case::Case;
use crate::inputs::{
    C2M, C2M_REPORT, FOURFOLD_SCREW, FOURFOLD_SCREW_REPORT, IDENTITY_REPORT, INVERSION,
    INVERSION_REPORT, P21C_REPORT,
};

/// Reports of all heights of an orientation.
pub(crate) fn all() -> &'static [Case] {
    &CASES
}

static CASES: [Case; 10] = [
    Case {
        name: "P1 along c",
        words: &["layers", "0", "0", "1"],
        input: b"x,y,z\n",
        output: IDENTITY_REPORT,
        complaints: b"",
        status: 0,
    },
    Case {
        name: "P-1 along c",
        words: &["layers", "0", "0", "1"],
        input: INVERSION,
        output: INVERSION_REPORT,
        complaints: b"",
        status: 0,
    },
    Case {
        name: "P-1 along (235)",
        words: &[
            "layers", "2", "3", "5", "--frame", "1,1,-1", "-3,2,0", "-1,1,0",
        ],
        input: INVERSION,
        output: b"plane 2 3 5\n\
            period 1\n\
            a 1,1,-1\n\
            b -3,2,0\n\
            tau -1,1,0\n\
            c -1,1,0\n\
            general planes 2\n\
            type 1 p1\n\
            basis 1,1,-1 -3,2,0 -1,1,0\n\
            origin 0,0,0 + s/d c\n\
            op x,y,z\n\
            height 0 orbit 1\n\
            type 2 p-1\n\
            basis 1,1,-1 -3,2,0 -1,1,0\n\
            origin 0,0,0\n\
            op x,y,z\n\
            op -x,-y,-z\n\
            height 1/2 orbit 2\n\
            type 2 p-1\n\
            basis 1,1,-1 -3,2,0 -1,1,0\n\
            origin -1/2,1/2,0\n\
            op x,y,z\n\
            op -x-1,-y+1,-z\n\
            end\n",
        complaints: b"",
        status: 0,
    },
    Case {
        name: "P2_1/c along b",
        words: &[
            "layers", "0", "1", "0", "--frame", "1,0,0", "0,0,-1", "0,1,0",
        ],
        input: b"x,y,z\n-x,y+1/2,-z+1/2\n-x,-y,-z\nx,-y+1/2,z+1/2\n",
        output: P21C_REPORT,
        complaints: b"",
        status: 0,
    },
    Case {
        name: "P2_12_12_1 along c",
        words: &["layers", "0", "0", "1"],
        input: b"x,y,z\n-x+1/2,-y,z+1/2\n-x,y+1/2,-z+1/2\nx+1/2,-y+1/2,-z\n",
        output: b"plane 0 0 1\n\
            period 1\n\
            a 1,0,0\n\
            b 0,1,0\n\
            tau 0,0,1\n\
            c 0,0,1\n\
            general planes 4\n\
            type 1 p1\n\
            basis 1,0,0 0,1,0 0,0,1\n\
            origin 0,0,0 + s/d c\n\
            op x,y,z\n\
            height 0 orbit 1\n\
            type 9 p2_111\n\
            basis 1,0,0 0,1,0 0,0,1\n\
            origin 0,1/4,0\n\
            op x,y,z\n\
            op x+1/2,-y+1/2,-z\n\
            height 1/4 orbit 2\n\
            type 9 p2_111\n\
            basis 0,1,0 1,0,0 0,0,-1\n\
            origin 0,0,1/4\n\
            op x,y,z\n\
            op -x,y+1/2,-z+1/2\n\
            height 1/2 orbit 1\n\
            type 9 p2_111\n\
            basis 1,0,0 0,1,0 0,0,1\n\
            origin 0,1/4,1/2\n\
            op x,y,z\n\
            op x+1/2,-y+1/2,-z+1\n\
            height 3/4 orbit 2\n\
            type 9 p2_111\n\
            basis 0,1,0 1,0,0 0,0,-1\n\
            origin 0,0,3/4\n\
            op x,y,z\n\
            op -x,y+1/2,-z+3/2\n\
            end\n",
        complaints: b"",
        status: 0,
    },
    Case {
        name: "P4_1 along c",
        words: &["layers", "0", "0", "1"],
        input: FOURFOLD_SCREW,
        output: FOURFOLD_SCREW_REPORT,
        complaints: b"",
        status: 0,
    },
    Case {
        name: "P4_1 along a",
        words: &[
            "layers", "1", "0", "0", "--frame", "0,1,0", "0,0,1", "1,0,0",
        ],
        input: FOURFOLD_SCREW,
        output: b"plane 1 0 0\n\
            period 1\n\
            a 0,1,0\n\
            b 0,0,1\n\
            tau 1,0,0\n\
            c 1,0,0\n\
            general planes 2\n\
            type 1 p1\n\
            basis 0,1,0 0,0,1 1,0,0\n\
            origin 0,0,0 + s/d c\n\
            op x,y,z\n\
            height 0 orbit 1\n\
            type 9 p2_111\n\
            basis 0,0,1 0,1,0 -1,0,0\n\
            origin 0,0,0\n\
            op x,y,z\n\
            op -x,-y,z+1/2\n\
            height 1/2 orbit 2\n\
            type 9 p2_111\n\
            basis 0,0,1 0,1,0 -1,0,0\n\
            origin 1/2,0,0\n\
            op x,y,z\n\
            op -x+1,-y,z+1/2\n\
            end\n",
        complaints: b"",
        status: 0,
    },
    Case {
        name: "C2/m along b",
        words: &[
            "layers",
            "0",
            "1",
            "0",
            "--frame",
            "1,0,0",
            "0,0,-1",
            "-1/2,1/2,0",
        ],
        input: C2M,
        output: C2M_REPORT,
        complaints: b"",
        status: 0,
    },
    Case {
        name: "C2/m along b, without a centring row",
        words: &[
            "layers",
            "0",
            "1",
            "0",
            "--frame",
            "1,0,0",
            "0,0,-1",
            "-1/2,1/2,0",
        ],
        input: b"x,y,z\n\
        -x,y,-z\n\
        -x,-y,-z\n\
        x,-y,z\n\
        x+1/2,y+1/2,z\n\
        -x+1/2,y+1/2,-z\n\
        -x+1/2,-y+1/2,-z\n\
        x+1/2,-y+1/2,z\n",
        output: C2M_REPORT,
        complaints: b"",
        status: 0,
    },
    Case {
        name: "Pnma along b",
        words: &[
            "layers", "0", "1", "0", "--frame", "1,0,0", "0,0,-1", "0,1,0",
        ],
        input: b"x,y,z\n\
        -x+1/2,-y,z+1/2\n\
        -x,y+1/2,-z\n\
        x+1/2,-y+1/2,-z+1/2\n\
        -x,-y,-z\n\
        x+1/2,y,-z+1/2\n\
        x,-y+1/2,z\n\
        -x+1/2,y+1/2,z+1/2\n",
        output: b"plane 0 1 0\n\
            period 1\n\
            a 1,0,0\n\
            b 0,0,-1\n\
            tau 0,1,0\n\
            c 0,1,0\n\
            general planes 4\n\
            type 12 pb11\n\
            basis 0,0,-1 1,0,0 0,-1,0\n\
            origin 0,0,-1/4 + s/d c\n\
            op x,y,z\n\
            op x+1/2,y,-z-1/2\n\
            height 0 orbit 1\n\
            type 17 p2_1/b11\n\
            basis 0,0,-1 1,0,0 0,-1,0\n\
            origin 0,0,0\n\
            op x,y,z\n\
            op -x+1/2,-y,z-1/2\n\
            op -x,-y,-z\n\
            op x+1/2,y,-z-1/2\n\
            height 1/4 orbit 2\n\
            type 29 pb2_1m\n\
            basis 0,0,-1 1,0,0 0,-1,0\n\
            origin 0,1/4,-1/4\n\
            op x,y,z\n\
            op x+1/2,-y+1/2,-z-1/2\n\
            op x+1/2,y,-z-1/2\n\
            op x,-y+1/2,z\n\
            height 1/2 orbit 1\n\
            type 17 p2_1/b11\n\
            basis 0,0,-1 1,0,0 0,-1,0\n\
            origin 0,1/2,0\n\
            op x,y,z\n\
            op -x+1/2,-y+1,z-1/2\n\
            op -x,-y+1,-z\n\
            op x+1/2,y,-z-1/2\n\
            height 3/4 orbit 2\n\
            type 29 pb2_1m\n\
            basis 0,0,-1 1,0,0 0,-1,0\n\
            origin 0,3/4,-1/4\n\
            op x,y,z\n\
            op x+1/2,-y+3/2,-z-1/2\n\
            op x+1/2,y,-z-1/2\n\
            op x,-y+3/2,z\n\
            end\n",
        complaints: b"",
        status: 0,
    },
];
