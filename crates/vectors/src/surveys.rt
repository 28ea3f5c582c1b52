// One orientation of each class of equivalent ones.
use crate::case::Case;
use crate::inputs::INVERSION;

/// One orientation of each class of equivalent ones.
pub(crate) fn all() -> &'static [Case] {
    &CASES
}

static CASES: [Case; 4] = [
    Case {
        name: "P-1 with indices of at most 1",
        words: &["survey", "1"],
        input: INVERSION,
        output: b"plane 1 1 1 images 2 special 2\n\
            plane 1 1 0 images 2 special 2\n\
            plane 1 1 -1 images 2 special 2\n\
            plane 1 0 1 images 2 special 2\n\
            plane 1 0 0 images 2 special 2\n\
            plane 1 0 -1 images 2 special 2\n\
            plane 1 -1 1 images 2 special 2\n\
            plane 1 -1 0 images 2 special 2\n\
            plane 1 -1 -1 images 2 special 2\n\
            plane 0 1 1 images 2 special 2\n\
            plane 0 1 0 images 2 special 2\n\
            plane 0 1 -1 images 2 special 2\n\
            plane 0 0 1 images 2 special 2\n\
            end\n",
        complaints: b"",
        status: 0,
    },
    Case {
        name: "Pm-3m with indices of at most 1",
        words: &["survey", "1"],
        input: b"generators\n-y,x,z\nz,x,y\n-x,-y,-z\n",
        output: b"plane 1 1 1 images 8 special 2\n\
            plane 1 1 0 images 12 special 2\n\
            plane 1 0 0 images 6 special 2\n\
            end\n",
        complaints: b"",
        status: 0,
    },
    Case {
        name: "P2_12_12_1 with indices of at most 1",
        words: &["survey", "1"],
        input: b"x,y,z\n-x+1/2,-y,z+1/2\n-x,y+1/2,-z+1/2\nx+1/2,-y+1/2,-z\n",
        output: b"plane 1 1 1 images 8 special 0\n\
            plane 1 1 0 images 4 special 2\n\
            plane 1 0 1 images 4 special 2\n\
            plane 1 0 0 images 2 special 4\n\
            plane 0 1 1 images 4 special 2\n\
            plane 0 1 0 images 2 special 4\n\
            plane 0 0 1 images 2 special 4\n\
            end\n",
        complaints: b"",
        status: 0,
    },
    Case {
        name: "a survey with indices of at most 6",
        words: &["survey", "6"],
        input: INVERSION,
        output: b"",
        complaints: b"refused: usage\n",
        status: 1,
    },
];
