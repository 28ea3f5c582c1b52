// The images of an orientation.
use crate::case::Case;
use crate::inputs::FOURFOLD_SCREW;

/// P3: a threefold axis.
const THREEFOLD: &[u8] = b"x,y,z\n-y,x-y,z\n-x+y,-x,z\n";

/// The images of an orientation.
pub(crate) fn all() -> &'static [Case] {
    &CASES
}

static CASES: [Case; 3] = [
    Case {
        name: "the images of (100) in P4_1",
        words: &["images", "1", "0", "0"],
        input: FOURFOLD_SCREW,
        output: b"image 1 0 0\nimage -1 0 0\nimage 0 -1 0\nimage 0 1 0\nend\n",
        complaints: b"",
        status: 0,
    },
    Case {
        name: "the images of (99 98 0) in P3",
        words: &["images", "99", "98", "0"],
        input: THREEFOLD,
        output: b"image 99 98 0\nimage 98 -197 0\nimage -197 99 0\nend\n",
        complaints: b"",
        status: 0,
    },
    Case {
        name: "an image too wide",
        words: &["images", "255", "254", "0"],
        input: THREEFOLD,
        output: b"",
        complaints: b"refused: image too wide\n",
        status: 1,
    },
];
