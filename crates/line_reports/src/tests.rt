// Worked scans of lines, by hand.
ghost use Rattle.std.specs.Prelude.{IfOk};
ghost use Rattle.fractions.specs.FractionOf.{fraction_of};
ghost use Rattle.integers.specs.Size.{IsWithin};
ghost use Rattle.plane_lattice.specs.SmallHeights.{IsSmallHeight};
ghost use Rattle.line_scans.specs.SmallLineScans.{IsSmallLineScan};

use crate::lines_text;
use fractions::{Part, Ratio, UNIT};
use friezes::FoundFrieze;
use line_scans::{LineHeight, LineScan, LineSection};
use plane_motions::Motion2;
use std::alloc::{AllocError, Global};

const NONE: Part = Part(0);

const HALF: Part = Part(UNIT / 2);

const EDGE: Part = Part(UNIT);

const ONE: Motion2 = Motion2 {
    w: [[1, 0], [0, 1]],
    t: [NONE, NONE],
};

const HALF_TURN: Motion2 = Motion2 {
    w: [[-1, 0], [0, -1]],
    t: [NONE, NONE],
};

const HALF_TURN_ABOVE: Motion2 = Motion2 {
    w: [[-1, 0], [0, -1]],
    t: [NONE, EDGE],
};

const MIRROR: Motion2 = Motion2 {
    w: [[-1, 0], [0, 1]],
    t: [HALF, NONE],
};

const GLIDE: Motion2 = Motion2 {
    w: [[1, 0], [0, -1]],
    t: [HALF, NONE],
};

const GLIDE_ABOVE: Motion2 = Motion2 {
    w: [[1, 0], [0, -1]],
    t: [HALF, EDGE],
};

// The lines y = s of p2mg.
const LINES_ALONG_GLIDES: &str = "\
line 0 1
period 1
a 1,0
tau 0,1
c 0,1
general
type 3 p1m1
basis 1,0 0,1
origin 1/4,0 + s/d c
op x,y
op -x+1/2,y
height 0
type 7 p2mg
basis 1,0 0,1
origin 0,0
op x,y
op -x,-y
op -x+1/2,y
op x+1/2,-y
height 1/2
type 7 p2mg
basis 1,0 0,1
origin 0,1/2
op x,y
op -x,-y+1
op -x+1/2,y
op x+1/2,-y+1
end
";

fn halves(num: i64) -> Ratio
    requires { IsWithin 2 num }
    ensures { IsSmallHeight (fraction_of result) }
{
    Ratio::make(i128::from(num), 2).unwrap()
}

fn scan_along_glides(alloc: Global) -> Result<LineScan, AllocError>
    ensures { IfOk result IsSmallLineScan }
{
    let general = LineSection {
        ops: vec![in alloc; ONE, MIRROR]?,
        found: FoundFrieze { number: 3, x: 48 },
    };
    let at_the_corner = LineSection {
        ops: vec![in alloc; ONE, HALF_TURN, MIRROR, GLIDE]?,
        found: FoundFrieze { number: 7, x: 0 },
    };
    let half_way = LineSection {
        ops: vec![in alloc; ONE, HALF_TURN_ABOVE, MIRROR, GLIDE_ABOVE]?,
        found: FoundFrieze { number: 7, x: 0 },
    };
    let heights = vec![in alloc;
        LineHeight {
            s: halves(0),
            section: at_the_corner
        },
        LineHeight {
            s: halves(1),
            section: half_way
        },
    ]?;
    Ok(LineScan {
        h: 0,
        k: 1,
        a: [EDGE, NONE],
        tau: [NONE, EDGE],
        period: EDGE,
        c: [halves(0), halves(2)],
        general,
        heights,
    })
}

#[test]
fn lines_along_glides(rt: HostRuntime) -> Result<(), AllocError> {
    let scan = scan_along_glides(rt.alloc())?;
    let text = lines_text(rt.alloc(), &scan)?;
    assert_eq!(rt; text.as_slice(), LINES_ALONG_GLIDES.as_bytes());
    Ok(())
}
