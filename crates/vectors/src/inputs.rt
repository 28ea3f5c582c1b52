// Inputs and outputs of several cases.

/// P-1: the inversion.
pub const INVERSION: &[u8] = b"x,y,z\n-x,-y,-z\n";

/// P4_1: a fourfold screw axis.
pub(crate) const FOURFOLD_SCREW: &[u8] = b"x,y,z\n-x,-y,z+1/2\n-y,x,z+1/4\ny,-x,z+3/4\n";

/// C2/m, unique axis b.
pub(crate) const C2M: &[u8] = b"(0,0,0)+ (1/2,1/2,0)+\nx,y,z\n-x,y,-z\n-x,-y,-z\nx,-y,z\n";

/// The report of P-1 along c.
pub const INVERSION_REPORT: &[u8] = b"plane 0 0 1\n\
    period 1\n\
    a 1,0,0\n\
    b 0,1,0\n\
    tau 0,0,1\n\
    c 0,0,1\n\
    general planes 2\n\
    type 1 p1\n\
    basis 1,0,0 0,1,0 0,0,1\n\
    origin 0,0,0 + s/d c\n\
    op x,y,z\n\
    height 0 orbit 1\n\
    type 2 p-1\n\
    basis 1,0,0 0,1,0 0,0,1\n\
    origin 0,0,0\n\
    op x,y,z\n\
    op -x,-y,-z\n\
    height 1/2 orbit 2\n\
    type 2 p-1\n\
    basis 1,0,0 0,1,0 0,0,1\n\
    origin 0,0,1/2\n\
    op x,y,z\n\
    op -x,-y,-z+1\n\
    end\n";

/// The report of P1 along c.
pub(crate) const IDENTITY_REPORT: &[u8] = b"plane 0 0 1\n\
    period 1\n\
    a 1,0,0\n\
    b 0,1,0\n\
    tau 0,0,1\n\
    c 0,0,1\n\
    general planes 1\n\
    type 1 p1\n\
    basis 1,0,0 0,1,0 0,0,1\n\
    origin 0,0,0 + s/d c\n\
    op x,y,z\n\
    end\n";

/// The report of P4_1 along its axis.
pub(crate) const FOURFOLD_SCREW_REPORT: &[u8] = b"plane 0 0 1\n\
    period 1\n\
    a 1,0,0\n\
    b 0,1,0\n\
    tau 0,0,1\n\
    c 0,0,1\n\
    general planes 4\n\
    type 1 p1\n\
    basis 1,0,0 0,1,0 0,0,1\n\
    origin 0,0,0 + s/d c\n\
    op x,y,z\n\
    end\n";

/// The report of P2_1/c along b.
pub(crate) const P21C_REPORT: &[u8] = b"plane 0 1 0\n\
    period 1\n\
    a 1,0,0\n\
    b 0,0,-1\n\
    tau 0,1,0\n\
    c 0,1,0\n\
    general planes 4\n\
    type 1 p1\n\
    basis 1,0,0 0,0,-1 0,1,0\n\
    origin 0,0,0 + s/d c\n\
    op x,y,z\n\
    height 0 orbit 1\n\
    type 2 p-1\n\
    basis 1,0,0 0,0,-1 0,1,0\n\
    origin 0,0,0\n\
    op x,y,z\n\
    op -x,-y,-z\n\
    height 1/4 orbit 2\n\
    type 5 p11a\n\
    basis 0,0,-1 1,0,0 0,-1,0\n\
    origin 0,1/4,0\n\
    op x,y,z\n\
    op x,-y+1/2,z-1/2\n\
    height 1/2 orbit 1\n\
    type 2 p-1\n\
    basis 1,0,0 0,0,-1 0,1,0\n\
    origin 0,1/2,0\n\
    op x,y,z\n\
    op -x,-y+1,-z\n\
    height 3/4 orbit 2\n\
    type 5 p11a\n\
    basis 0,0,-1 1,0,0 0,-1,0\n\
    origin 0,3/4,0\n\
    op x,y,z\n\
    op x,-y+3/2,z-1/2\n\
    end\n";

/// The report of C2/m along b.
pub(crate) const C2M_REPORT: &[u8] = b"plane 0 1 0\n\
    period 1/2\n\
    a 1,0,0\n\
    b 0,0,-1\n\
    tau -1/2,1/2,0\n\
    c 0,1/2,0\n\
    general planes 2\n\
    type 3 p112\n\
    basis 1,0,0 0,0,-1 0,1/2,0\n\
    origin 0,0,0 + s/d c\n\
    op x,y,z\n\
    op -x,y,-z\n\
    height 0 orbit 1\n\
    type 6 p112/m\n\
    basis 1,0,0 0,0,-1 0,1/2,0\n\
    origin 0,0,0\n\
    op x,y,z\n\
    op -x,y,-z\n\
    op -x,-y,-z\n\
    op x,-y,z\n\
    height 1/4 orbit 2\n\
    type 7 p112/a\n\
    basis 1,0,0 0,0,-1 0,1/2,0\n\
    origin -1/4,1/4,0\n\
    op x,y,z\n\
    op -x,y,-z\n\
    op -x-1/2,-y+1/2,-z\n\
    op x-1/2,-y+1/2,z\n\
    end\n";
