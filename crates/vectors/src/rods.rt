// What maps a line to itself, and lines that are refused.
use crate::case::Case;
use crate::inputs::{FOURFOLD_SCREW, INVERSION};

/// Pm-3m: the six orders of x, y, z with all signs.
const PRIMITIVE_CUBIC: &[u8] =
    b"x,y,z\nx,y,-z\nx,-y,z\nx,-y,-z\n-x,y,z\n-x,y,-z\n-x,-y,z\n-x,-y,-z\n\
    x,z,y\nx,z,-y\nx,-z,y\nx,-z,-y\n-x,z,y\n-x,z,-y\n-x,-z,y\n-x,-z,-y\n\
    y,x,z\ny,x,-z\ny,-x,z\ny,-x,-z\n-y,x,z\n-y,x,-z\n-y,-x,z\n-y,-x,-z\n\
    y,z,x\ny,z,-x\ny,-z,x\ny,-z,-x\n-y,z,x\n-y,z,-x\n-y,-z,x\n-y,-z,-x\n\
    z,x,y\nz,x,-y\nz,-x,y\nz,-x,-y\n-z,x,y\n-z,x,-y\n-z,-x,y\n-z,-x,-y\n\
    z,y,x\nz,y,-x\nz,-y,x\nz,-y,-x\n-z,y,x\n-z,y,-x\n-z,-y,x\n-z,-y,-x\n";

/// What maps a line to itself, and lines that are refused.
pub(crate) fn all() -> &'static [Case] {
    &CASES
}

static CASES: [Case; 8] = [
    Case {
        name: "P4_1 along its axis",
        words: &["rod", "0", "0", "1", "0", "0", "0"],
        input: FOURFOLD_SCREW,
        output: b"line 0 0 1\n\
            through 0,0,0\n\
            axis 0,0,1\n\
            a 1,0,0\n\
            b 0,1,0\n\
            type 24 p4_1\n\
            basis 1,0,0 0,1,0 0,0,1\n\
            origin 0,0,0\n\
            op x,y,z\n\
            op -x,-y,z+1/2\n\
            op -y,x,z+1/4\n\
            op y,-x,z+3/4\n\
            end\n",
        complaints: b"",
        status: 0,
    },
    Case {
        name: "P4_1 along its twofold screw axis",
        words: &["rod", "0", "0", "1", "1/2", "0", "0"],
        input: FOURFOLD_SCREW,
        output: b"line 0 0 1\n\
            through 1/2,0,0\n\
            axis 0,0,1\n\
            a 1,0,0\n\
            b 0,1,0\n\
            type 9 p112_1\n\
            basis 1,0,0 0,1,0 0,0,1\n\
            origin 1/2,0,0\n\
            op x,y,z\n\
            op -x+1,-y,z+1/2\n\
            end\n",
        complaints: b"",
        status: 0,
    },
    Case {
        name: "P4_3 along its axis: a left-handed change to p4_1 is no change",
        words: &["rod", "0", "0", "1", "0", "0", "0"],
        input: b"x,y,z\n-x,-y,z+1/2\n-y,x,z+3/4\ny,-x,z+1/4\n",
        output: b"line 0 0 1\n\
            through 0,0,0\n\
            axis 0,0,1\n\
            a 1,0,0\n\
            b 0,1,0\n\
            type 26 p4_3\n\
            basis 1,0,0 0,1,0 0,0,1\n\
            origin 0,0,0\n\
            op x,y,z\n\
            op -x,-y,z+1/2\n\
            op -y,x,z+3/4\n\
            op y,-x,z+1/4\n\
            end\n",
        complaints: b"",
        status: 0,
    },
    Case {
        name: "P-1 from an eighth: the origin is the next inversion along the axis",
        words: &["rod", "0", "0", "1", "0", "0", "1/8"],
        input: INVERSION,
        output: b"line 0 0 1\n\
            through 0,0,1/8\n\
            axis 0,0,1\n\
            a 1,0,0\n\
            b 0,1,0\n\
            type 2 p-1\n\
            basis 1,0,0 0,1,0 0,0,1\n\
            origin 0,0,1/2\n\
            op x,y,z\n\
            op -x,-y,-z\n\
            end\n",
        complaints: b"",
        status: 0,
    },
    Case {
        name: "Pm-3m along its diagonal: a and b are made level",
        words: &["rod", "1", "1", "1", "0", "0", "0"],
        input: PRIMITIVE_CUBIC,
        output: b"line 1 1 1\n\
            through 0,0,0\n\
            axis 1,1,1\n\
            a 2/3,-1/3,-1/3\n\
            b -1/3,2/3,-1/3\n\
            type 51 p-31m\n\
            basis 2/3,-1/3,-1/3 -1/3,2/3,-1/3 1,1,1\n\
            origin 0,0,0\n\
            op x,y,z\n\
            op -x,-y,-z\n\
            op x,z,y\n\
            op -x,-z,-y\n\
            op y,x,z\n\
            op -y,-x,-z\n\
            op y,z,x\n\
            op -y,-z,-x\n\
            op z,x,y\n\
            op -z,-x,-y\n\
            op z,y,x\n\
            op -z,-y,-x\n\
            end\n",
        complaints: b"",
        status: 0,
    },
    Case {
        name: "a direction with a common divisor",
        words: &["rod", "0", "0", "2", "0", "0", "0"],
        input: INVERSION,
        output: b"",
        complaints: b"refused: common divisor 2\n",
        status: 1,
    },
    Case {
        name: "a fifth in a point",
        words: &["rod", "0", "0", "1", "1/5", "0", "0"],
        input: INVERSION,
        output: b"",
        complaints: b"refused: point out of range\n",
        status: 1,
    },
    Case {
        name: "the second edge is the axis",
        words: &["rod", "0", "1", "0", "0", "0", "0"],
        input: INVERSION,
        output: b"",
        complaints: b"refused: no frame\n",
        status: 1,
    },
];
