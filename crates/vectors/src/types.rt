// The operations of a type, by its number.
use crate::case::Case;

/// The operations of a type, by its number.
pub(crate) fn all() -> &'static [Case] {
    &CASES
}

static CASES: [Case; 3] = [
    Case {
        name: "the layer type p112/a",
        words: &["types", "layer", "7"],
        input: b"",
        output: b"layer 7 p112/a\n\
            op x,y,z\n\
            op x+1/2,y,-z\n\
            op -x+1/2,-y,z\n\
            op -x,-y,-z\n\
            end\n",
        complaints: b"",
        status: 0,
    },
    Case {
        name: "the rod type p4_3",
        words: &["types", "rod", "26"],
        input: b"",
        output: b"rod 26 p4_3\n\
            op x,y,z\n\
            op y,-x,z+1/4\n\
            op -y,x,z+3/4\n\
            op -x,-y,z+1/2\n\
            end\n",
        complaints: b"",
        status: 0,
    },
    Case {
        name: "the frieze type p2mg",
        words: &["types", "frieze", "7"],
        input: b"",
        output: b"frieze 7 p2mg\nop x,y\nop x+1/2,-y\nop -x+1/2,y\nop -x,-y\nend\n",
        complaints: b"",
        status: 0,
    },
];
