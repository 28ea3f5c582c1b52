// The frieze groups of all lines of a plane group, and texts of pairs that are refused.
use crate::case::Case;

/// The frieze groups of all lines of a plane group, and texts of pairs that are refused.
pub(crate) fn all() -> &'static [Case] {
    &CASES
}

// p2mg
const GLIDE_AND_MIRROR: &[u8] = b"x,y\n-x,-y\n-x+1/2,y\nx+1/2,-y\n";

const ALONG_THE_GLIDE: &[u8] = b"line 0 1\n\
    period 1\n\
    a 1,0\n\
    tau 0,1\n\
    c 0,1\n\
    general\n\
    type 3 p1m1\n\
    basis 1,0 0,1\n\
    origin 1/4,0 + s/d c\n\
    op x,y\n\
    op -x+1/2,y\n\
    height 0\n\
    type 7 p2mg\n\
    basis 1,0 0,1\n\
    origin 0,0\n\
    op x,y\n\
    op -x,-y\n\
    op -x+1/2,y\n\
    op x+1/2,-y\n\
    height 1/2\n\
    type 7 p2mg\n\
    basis 1,0 0,1\n\
    origin 0,1/2\n\
    op x,y\n\
    op -x,-y+1\n\
    op -x+1/2,y\n\
    op x+1/2,-y+1\n\
    end\n";

const ALONG_THE_MIRROR: &[u8] = b"line 1 0\n\
    period 1\n\
    a 0,1\n\
    tau 1,0\n\
    c 1,0\n\
    general\n\
    type 1 p1\n\
    basis 0,1 1,0\n\
    origin 0,0 + s/d c\n\
    op x,y\n\
    height 0\n\
    type 2 p211\n\
    basis 0,1 1,0\n\
    origin 0,0\n\
    op x,y\n\
    op -x,-y\n\
    height 1/4\n\
    type 4 p11m\n\
    basis 0,1 1,0\n\
    origin 1/4,0\n\
    op x,y\n\
    op -x+1/2,y\n\
    height 1/2\n\
    type 2 p211\n\
    basis 0,1 1,0\n\
    origin 1/2,0\n\
    op x,y\n\
    op -x+1,-y\n\
    height 3/4\n\
    type 4 p11m\n\
    basis 0,1 1,0\n\
    origin 3/4,0\n\
    op x,y\n\
    op -x+3/2,y\n\
    end\n";

static CASES: [Case; 5] = [
    Case {
        name: "p2mg along its glides",
        words: &["lines", "0", "1"],
        input: GLIDE_AND_MIRROR,
        output: ALONG_THE_GLIDE,
        complaints: b"",
        status: 0,
    },
    Case {
        name: "p2mg along its mirrors",
        words: &["lines", "1", "0"],
        input: GLIDE_AND_MIRROR,
        output: ALONG_THE_MIRROR,
        complaints: b"",
        status: 0,
    },
    Case {
        name: "a letter z in a pair",
        words: &["lines", "0", "1"],
        input: b"x,z",
        output: b"",
        complaints: b"refused: line 1 column 3 unknown-sign\n",
        status: 1,
    },
    Case {
        name: "a triplet among pairs",
        words: &["lines", "0", "1"],
        input: b"x,y\n-x,-y,z\n",
        output: b"",
        complaints: b"refused: line 2 column 6 extra-part\n",
        status: 1,
    },
    Case {
        name: "indices of lines with a common divisor",
        words: &["lines", "2", "0"],
        input: b"x,y",
        output: b"",
        complaints: b"refused: common divisor 2\n",
        status: 1,
    },
];
