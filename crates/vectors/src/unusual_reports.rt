// Reports of unusual texts, frames and words.
use crate::case::Case;
use crate::inputs::{INVERSION, INVERSION_REPORT};

/// Reports of unusual texts, frames and words.
pub(crate) fn all() -> &'static [Case] {
    &CASES
}

/// A twofold axis along a.
const TWOFOLD_ALONG_A: &[u8] = b"x,y,z\nx,-y,-z\n";

static CASES: [Case; 9] = [
    Case {
        name: "P-1 along c, with labels, comments, capitals and CRLF",
        words: &["layers", "0", "0", "1"],
        input: b"(1) X, Y, Z\r\n# centre\r\n(2) -x, 0-y,-z\r\n\r\nx,y,z",
        output: INVERSION_REPORT,
        complaints: b"",
        status: 0,
    },
    Case {
        name: "the finest lattice along c",
        words: &[
            "layers", "0", "0", "1", "--frame", "1/4,0,0", "0,1/4,0", "0,0,1/4",
        ],
        input: b"(1/4,0,0)+ (0,1/4,0)+ (0,0,1/4)+\nx,y,z\n",
        output: b"plane 0 0 1\n\
            period 1/4\n\
            a 1/4,0,0\n\
            b 0,1/4,0\n\
            tau 0,0,1/4\n\
            c 0,0,1/4\n\
            general planes 1\n\
            type 1 p1\n\
            basis 1/4,0,0 0,1/4,0 0,0,1/4\n\
            origin 0,0,0 + s/d c\n\
            op x,y,z\n\
            end\n",
        complaints: b"",
        status: 0,
    },
    Case {
        name: "sixteenths of an edge",
        words: &[
            "layers", "0", "0", "1", "--frame", "1/16,0,0", "0,1,0", "0,0,1",
        ],
        input: b"(1/16,0,0)+\nx,y,z\n",
        output: b"plane 0 0 1\n\
            period 1\n\
            a 1/16,0,0\n\
            b 0,1,0\n\
            tau 0,0,1\n\
            c 0,0,1\n\
            general planes 1\n\
            type 1 p1\n\
            basis 1/16,0,0 0,1,0 0,0,1\n\
            origin 0,0,0 + s/d c\n\
            op x,y,z\n\
            end\n",
        complaints: b"",
        status: 0,
    },
    Case {
        name: "P1 along (255 0 1)",
        words: &[
            "layers", "255", "0", "1", "--frame", "0,1,0", "-1,0,255", "0,0,1",
        ],
        input: b"x,y,z\n",
        output: b"plane 255 0 1\n\
            period 1\n\
            a 0,1,0\n\
            b -1,0,255\n\
            tau 0,0,1\n\
            c 0,0,1\n\
            general planes 1\n\
            type 1 p1\n\
            basis 0,1,0 -1,0,255 0,0,1\n\
            origin 0,0,0 + s/d c\n\
            op x,y,z\n\
            end\n",
        complaints: b"",
        status: 0,
    },
    Case {
        name: "P-1 along (99 98 97)",
        words: &[
            "layers",
            "99",
            "98",
            "97",
            "--frame",
            "1,-2,1",
            "49,-1,-49",
            "1,-1,0",
        ],
        input: INVERSION,
        output: b"plane 99 98 97\n\
            period 1\n\
            a 1,-2,1\n\
            b 49,-1,-49\n\
            tau 1,-1,0\n\
            c 1,-1,0\n\
            general planes 2\n\
            type 1 p1\n\
            basis 1,-2,1 49,-1,-49 1,-1,0\n\
            origin 0,0,0 + s/d c\n\
            op x,y,z\n\
            height 0 orbit 1\n\
            type 2 p-1\n\
            basis 1,-2,1 49,-1,-49 1,-1,0\n\
            origin 0,0,0\n\
            op x,y,z\n\
            op -x,-y,-z\n\
            height 1/2 orbit 2\n\
            type 2 p-1\n\
            basis 1,-2,1 49,-1,-49 1,-1,0\n\
            origin 1/2,-1/2,0\n\
            op x,y,z\n\
            op -x+1,-y-1,-z\n\
            end\n",
        complaints: b"",
        status: 0,
    },
    Case {
        name: "P2 with its axis along a, along c in an oblique frame",
        words: &[
            "layers", "0", "0", "1", "--frame", "1,0,0", "10,1,0", "0,0,1",
        ],
        input: TWOFOLD_ALONG_A,
        output: b"plane 0 0 1\n\
            period 1\n\
            a 1,0,0\n\
            b 10,1,0\n\
            tau 0,0,1\n\
            c 0,0,1\n\
            general planes 2\n\
            type 1 p1\n\
            basis 1,0,0 10,1,0 0,0,1\n\
            origin 0,0,0 + s/d c\n\
            op x,y,z\n\
            height 0 orbit 1\n\
            type unrecognised\n\
            op x,y,z\n\
            op x,-y,-z\n\
            height 1/2 orbit 2\n\
            type unrecognised\n\
            op x,y,z\n\
            op x,-y,-z+1\n\
            end\n",
        complaints: b"",
        status: 0,
    },
    Case {
        name: "P3 along c, by four indices",
        words: &["layers", "0", "0", "0", "1"],
        input: b"x,y,z\n-y,x-y,z\n-x+y,-x,z\n",
        output: b"plane 0 0 1\n\
            period 1\n\
            a 1,0,0\n\
            b 0,1,0\n\
            tau 0,0,1\n\
            c 0,0,1\n\
            general planes 1\n\
            type 65 p3\n\
            basis 1,0,0 0,1,0 0,0,1\n\
            origin 0,0,0 + s/d c\n\
            op x,y,z\n\
            op -y,x-y,z\n\
            op -x+y,-x,z\n\
            end\n",
        complaints: b"",
        status: 0,
    },
    Case {
        name: "P1 along c, in JSON",
        words: &["layers", "0", "0", "1", "--json"],
        input: b"x,y,z\n",
        output: b"{\"a\":\"1,0,0\",\"b\":\"0,1,0\",\"c\":\"0,0,1\",\
            \"general\":{\"ops\":[\"x,y,z\"],\"planes\":1,\
            \"type\":{\"basis\":[\"1,0,0\",\"0,1,0\",\"0,0,1\"],\"number\":1,\"origin\":\"0,0,0\",\"symbol\":\"p1\"}},\
            \"heights\":[],\"period\":\"1\",\"plane\":[0,0,1],\"tau\":\"0,0,1\"}\n",
        complaints: b"",
        status: 0,
    },
    Case {
        name: "P2 with its axis along a, along c in an oblique frame, in JSON",
        words: &[
            "layers", "0", "0", "1", "--frame", "1,0,0", "10,1,0", "0,0,1", "--json",
        ],
        input: TWOFOLD_ALONG_A,
        output: b"{\"a\":\"1,0,0\",\"b\":\"10,1,0\",\"c\":\"0,0,1\",\
            \"general\":{\"ops\":[\"x,y,z\"],\"planes\":2,\
            \"type\":{\"basis\":[\"1,0,0\",\"10,1,0\",\"0,0,1\"],\"number\":1,\"origin\":\"0,0,0\",\"symbol\":\"p1\"}},\
            \"heights\":[{\"height\":\"0\",\"ops\":[\"x,y,z\",\"x,-y,-z\"],\"orbit\":1,\"type\":null},\
            {\"height\":\"1/2\",\"ops\":[\"x,y,z\",\"x,-y,-z+1\"],\"orbit\":2,\"type\":null}],\
            \"period\":\"1\",\"plane\":[0,0,1],\"tau\":\"0,0,1\"}\n",
        complaints: b"",
        status: 0,
    },
];
