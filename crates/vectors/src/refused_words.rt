// Words that are refused, whatever the input.
use crate::case::Case;
use crate::inputs::INVERSION;

/// Words that are refused, whatever the input.
pub(crate) fn all() -> &'static [Case] {
    &CASES
}

static CASES: [Case; 14] = [
    Case {
        name: "two indices",
        words: &["layers", "1", "0"],
        input: INVERSION,
        output: b"",
        complaints: b"refused: usage\n",
        status: 1,
    },
    Case {
        name: "an index that is no number",
        words: &["layers", "1", "0", "x"],
        input: INVERSION,
        output: b"",
        complaints: b"refused: usage\n",
        status: 1,
    },
    Case {
        name: "an index out of range",
        words: &["layers", "256", "0", "1"],
        input: INVERSION,
        output: b"",
        complaints: b"refused: index out of range\n",
        status: 1,
    },
    Case {
        name: "all indices are zero",
        words: &["layers", "0", "0", "0"],
        input: INVERSION,
        output: b"",
        complaints: b"refused: all indices are zero\n",
        status: 1,
    },
    Case {
        name: "indices with a common divisor",
        words: &["layers", "2", "0", "0"],
        input: INVERSION,
        output: b"",
        complaints: b"refused: common divisor 2\n",
        status: 1,
    },
    Case {
        name: "a frame of two vectors",
        words: &["layers", "0", "0", "1", "--frame", "1,0,0", "0,1,0"],
        input: INVERSION,
        output: b"",
        complaints: b"refused: usage\n",
        status: 1,
    },
    Case {
        name: "a fifth in a frame",
        words: &[
            "layers", "0", "0", "1", "--frame", "1/5,0,0", "0,1,0", "0,0,1",
        ],
        input: INVERSION,
        output: b"",
        complaints: b"refused: frame entry out of range\n",
        status: 1,
    },
    Case {
        name: "a frame entry past the limit",
        words: &[
            "layers", "0", "0", "1", "--frame", "1,0,0", "1001,1,0", "0,0,1",
        ],
        input: INVERSION,
        output: b"",
        complaints: b"refused: frame entry out of range\n",
        status: 1,
    },
    Case {
        name: "a height over zero",
        words: &["at", "0", "0", "1", "1/0"],
        input: INVERSION,
        output: b"",
        complaints: b"refused: usage\n",
        status: 1,
    },
    Case {
        name: "a height past the limit",
        words: &["at", "0", "0", "1", "1000000001"],
        input: INVERSION,
        output: b"",
        complaints: b"refused: height too large\n",
        status: 1,
    },
    Case {
        name: "a layer type past the last",
        words: &["types", "layer", "81"],
        input: b"",
        output: b"",
        complaints: b"refused: usage\n",
        status: 1,
    },
    Case {
        name: "a third index that is not -(h+k)",
        words: &["layers", "1", "0", "0", "0"],
        input: INVERSION,
        output: b"",
        complaints: b"refused: third index is not -(h+k)\n",
        status: 1,
    },
    Case {
        name: "a third index that is wrong, of indices out of range",
        words: &["layers", "256", "0", "256", "1"],
        input: INVERSION,
        output: b"",
        complaints: b"refused: third index is not -(h+k)\n",
        status: 1,
    },
    Case {
        name: "the form before the frame",
        words: &[
            "layers", "0", "0", "1", "--json", "--frame", "1,0,0", "0,1,0", "0,0,1",
        ],
        input: INVERSION,
        output: b"",
        complaints: b"refused: usage\n",
        status: 1,
    },
];
