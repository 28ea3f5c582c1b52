// The operations at one height.
use crate::case::Case;
use crate::inputs::INVERSION;

/// The operations of P-1 at a half.
const INVERSION_AT_A_HALF: &[u8] = b"height 1/2\nop x,y,z\nop -x,-y,-z+1\nend\n";

/// The operations at one height.
pub(crate) fn all() -> &'static [Case] {
    &CASES
}

static CASES: [Case; 5] = [
    Case {
        name: "P-1 at a half",
        words: &["at", "0", "0", "1", "1/2"],
        input: INVERSION,
        output: INVERSION_AT_A_HALF,
        complaints: b"",
        status: 0,
    },
    Case {
        name: "P-1 at a half that is not in lowest terms",
        words: &["at", "0", "0", "1", "2/4"],
        input: INVERSION,
        output: INVERSION_AT_A_HALF,
        complaints: b"",
        status: 0,
    },
    Case {
        name: "P-1 at a general height",
        words: &["at", "0", "0", "1", "1/3"],
        input: INVERSION,
        output: b"height 1/3\nop x,y,z\nend\n",
        complaints: b"",
        status: 0,
    },
    Case {
        name: "P-1 at a negative height",
        words: &["at", "0", "0", "1", "-7/2"],
        input: INVERSION,
        output: b"height -7/2\nop x,y,z\nop -x,-y,-z-7\nend\n",
        complaints: b"",
        status: 0,
    },
    Case {
        name: "P-1 at the greatest height",
        words: &["at", "0", "0", "1", "1000000000"],
        input: INVERSION,
        output: b"height 1000000000\nop x,y,z\nop -x,-y,-z+2000000000\nend\n",
        complaints: b"",
        status: 0,
    },
];
