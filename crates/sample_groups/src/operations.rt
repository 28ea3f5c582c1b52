// The motions that the groups list.
use crate::shifts::{EDGE, HALF, NONE, ORIGIN, QUARTER};
use fractions::{Part, UNIT};
use motions::Motion3;

/// x,y,z
pub const IDENTITY: Motion3 = Motion3 {
    w: [[1, 0, 0], [0, 1, 0], [0, 0, 1]],
    t: ORIGIN,
};

/// -x,-y,-z
pub const INVERSION: Motion3 = Motion3 {
    w: [[-1, 0, 0], [0, -1, 0], [0, 0, -1]],
    t: ORIGIN,
};

/// -x,-y,-z+1
pub const NEXT_INVERSION: Motion3 = Motion3 {
    w: [[-1, 0, 0], [0, -1, 0], [0, 0, -1]],
    t: [NONE, NONE, EDGE],
};

/// -x,-y,-z-7
pub const FAR_INVERSION: Motion3 = Motion3 {
    w: [[-1, 0, 0], [0, -1, 0], [0, 0, -1]],
    t: [NONE, NONE, Part(-7 * UNIT)],
};

/// -x,y,-z
pub const TURN_ABOUT_B: Motion3 = Motion3 {
    w: [[-1, 0, 0], [0, 1, 0], [0, 0, -1]],
    t: ORIGIN,
};

/// x,-y,z
pub(crate) const MIRROR_ACROSS_B: Motion3 = Motion3 {
    w: [[1, 0, 0], [0, -1, 0], [0, 0, 1]],
    t: ORIGIN,
};

/// -x,-y,z
pub const TURN_ABOUT_C: Motion3 = Motion3 {
    w: [[-1, 0, 0], [0, -1, 0], [0, 0, 1]],
    t: ORIGIN,
};

/// x,y,-z
pub const MIRROR_ACROSS_C: Motion3 = Motion3 {
    w: [[1, 0, 0], [0, 1, 0], [0, 0, -1]],
    t: ORIGIN,
};

/// -x,y+1/2,-z+1/2
pub(crate) const SCREW_ALONG_B: Motion3 = Motion3 {
    w: [[-1, 0, 0], [0, 1, 0], [0, 0, -1]],
    t: [NONE, HALF, HALF],
};

/// x,-y+1/2,z+1/2
pub(crate) const GLIDE_ALONG_C: Motion3 = Motion3 {
    w: [[1, 0, 0], [0, -1, 0], [0, 0, 1]],
    t: [NONE, HALF, HALF],
};

/// P2_12_12_1: x,y,z; -x+1/2,-y,z+1/2; -x,y+1/2,-z+1/2; x+1/2,-y+1/2,-z
pub(crate) const THREE_SCREWS: [Motion3; 4] = [
    IDENTITY,
    Motion3 {
        w: [[-1, 0, 0], [0, -1, 0], [0, 0, 1]],
        t: [HALF, NONE, HALF],
    },
    SCREW_ALONG_B,
    Motion3 {
        w: [[1, 0, 0], [0, -1, 0], [0, 0, -1]],
        t: [HALF, HALF, NONE],
    },
];

/// P4: x,y,z; -x,-y,z; -y,x,z; y,-x,z
pub(crate) const FOURFOLD: [Motion3; 4] = [
    IDENTITY,
    TURN_ABOUT_C,
    Motion3 {
        w: [[0, -1, 0], [1, 0, 0], [0, 0, 1]],
        t: ORIGIN,
    },
    Motion3 {
        w: [[0, 1, 0], [-1, 0, 0], [0, 0, 1]],
        t: ORIGIN,
    },
];

/// P4_1: x,y,z; -x,-y,z+1/2; -y,x,z+1/4; y,-x,z+3/4
pub const FOURFOLD_SCREW: [Motion3; 4] = [
    IDENTITY,
    Motion3 {
        w: [[-1, 0, 0], [0, -1, 0], [0, 0, 1]],
        t: [NONE, NONE, HALF],
    },
    Motion3 {
        w: [[0, -1, 0], [1, 0, 0], [0, 0, 1]],
        t: [NONE, NONE, QUARTER],
    },
    Motion3 {
        w: [[0, 1, 0], [-1, 0, 0], [0, 0, 1]],
        t: [NONE, NONE, Part(3 * UNIT / 4)],
    },
];

/// P3: x,y,z; -y,x-y,z; -x+y,-x,z
pub const THREEFOLD: [Motion3; 3] = [
    IDENTITY,
    Motion3 {
        w: [[0, -1, 0], [1, -1, 0], [0, 0, 1]],
        t: ORIGIN,
    },
    Motion3 {
        w: [[-1, 1, 0], [-1, 0, 0], [0, 0, 1]],
        t: ORIGIN,
    },
];

/// P-3 about the diagonal of a cube: x,y,z; z,x,y; y,z,x; -x,-y,-z; -z,-x,-y; -y,-z,-x
pub(crate) const ROTOINVERSIONS: [Motion3; 6] = [
    IDENTITY,
    Motion3 {
        w: [[0, 0, 1], [1, 0, 0], [0, 1, 0]],
        t: ORIGIN,
    },
    Motion3 {
        w: [[0, 1, 0], [0, 0, 1], [1, 0, 0]],
        t: ORIGIN,
    },
    INVERSION,
    Motion3 {
        w: [[0, 0, -1], [-1, 0, 0], [0, -1, 0]],
        t: ORIGIN,
    },
    Motion3 {
        w: [[0, -1, 0], [0, 0, -1], [-1, 0, 0]],
        t: ORIGIN,
    },
];
