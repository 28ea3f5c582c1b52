// Inputs that are refused for a bad line.
use crate::case::Case;

/// Inputs that are refused for a bad line.
pub(crate) fn all() -> &'static [Case] {
    &CASES
}

static CASES: [Case; 12] = [
    Case {
        name: "an empty part",
        words: &["layers", "0", "0", "1"],
        input: b"x,,z\n",
        output: b"",
        complaints: b"refused: line 1 column 3 empty\n",
        status: 1,
    },
    Case {
        name: "an empty last part",
        words: &["layers", "0", "0", "1"],
        input: b"x,y,\n",
        output: b"",
        complaints: b"refused: line 1 column 5 missing-part\n",
        status: 1,
    },
    Case {
        name: "a fourth part",
        words: &["layers", "0", "0", "1"],
        input: b"x,y,z,x\n",
        output: b"",
        complaints: b"refused: line 1 column 6 extra-part\n",
        status: 1,
    },
    Case {
        name: "a letter twice",
        words: &["layers", "0", "0", "1"],
        input: b"x+x,y,z\n",
        output: b"",
        complaints: b"refused: line 1 column 3 repeated\n",
        status: 1,
    },
    Case {
        name: "a coefficient of two digits",
        words: &["layers", "0", "0", "1"],
        input: b"10x,y,z\n",
        output: b"",
        complaints: b"refused: line 1 column 3 coefficient\n",
        status: 1,
    },
    Case {
        name: "a fraction before a letter",
        words: &["layers", "0", "0", "1"],
        input: b"2/3x,y,z\n",
        output: b"",
        complaints: b"refused: line 1 column 4 coefficient\n",
        status: 1,
    },
    Case {
        name: "a number of four digits",
        words: &["layers", "0", "0", "1"],
        input: b"1000+x,y,z\n",
        output: b"",
        complaints: b"refused: line 1 column 4 coefficient\n",
        status: 1,
    },
    Case {
        name: "semicolons",
        words: &["layers", "0", "0", "1"],
        input: b"x;y;z\n",
        output: b"",
        complaints: b"refused: line 1 column 2 unknown-sign\n",
        status: 1,
    },
    Case {
        name: "a decimal fraction",
        words: &["layers", "0", "0", "1"],
        input: b"x+0.5,y,z\n",
        output: b"",
        complaints: b"refused: line 1 column 4 unknown-sign\n",
        status: 1,
    },
    Case {
        name: "a centring vector of two coordinates",
        words: &["layers", "0", "0", "1"],
        input: b"(1/2,1/2)+\n",
        output: b"",
        complaints: b"refused: line 1 column 9 missing-part\n",
        status: 1,
    },
    Case {
        name: "a fifth in a triplet",
        words: &["layers", "0", "0", "1"],
        input: b"x+1/5,y,z\n",
        output: b"",
        complaints: b"refused: line 1 column 5 denominator\n",
        status: 1,
    },
    Case {
        name: "two parts on the second line",
        words: &["layers", "0", "0", "1"],
        input: b"x,y,z\nx,y\n",
        output: b"",
        complaints: b"refused: line 2 column 4 missing-part\n",
        status: 1,
    },
];
