// The operations that map a slab to itself, and slabs that are refused.
use crate::case::Case;
use crate::inputs::INVERSION;

/// The operations that map a slab to itself, and slabs that are refused.
pub(crate) fn all() -> &'static [Case] {
    &CASES
}

static CASES: [Case; 5] = [
    Case {
        name: "P-1 over a period",
        words: &["slab", "0", "0", "1", "0", "1"],
        input: INVERSION,
        output: b"slab 0 1\nmiddle 1/2\nop x,y,z\nop -x,-y,-z+1\nend\n",
        complaints: b"",
        status: 0,
    },
    Case {
        name: "P-1 over two thirds of a period",
        words: &["slab", "0", "0", "1", "0", "2/3"],
        input: INVERSION,
        output: b"slab 0 2/3\nmiddle 1/3\nop x,y,z\nend\n",
        complaints: b"",
        status: 0,
    },
    Case {
        name: "a first height above the second",
        words: &["slab", "0", "0", "1", "1", "0"],
        input: INVERSION,
        output: b"",
        complaints: b"refused: empty slab\n",
        status: 1,
    },
    Case {
        name: "a middle that is too large",
        words: &["slab", "0", "0", "1", "1/999999999", "1/999999998"],
        input: INVERSION,
        output: b"",
        complaints: b"refused: height too large\n",
        status: 1,
    },
    Case {
        name: "a middle that is too large comes before the order of the heights",
        words: &["slab", "0", "0", "1", "1/999999998", "1/999999999"],
        input: INVERSION,
        output: b"",
        complaints: b"refused: height too large\n",
        status: 1,
    },
];
