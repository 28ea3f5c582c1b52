// The lines of the plane group p2mg, by hand.
ghost use Rattle.std.specs.Prelude.{◌≡◌, pos, All, IfOk, unsigned_abs};
ghost use Rattle.motions.specs.ListedSizes.{IsSmallWithin};
ghost use Rattle.motions.specs.Views.{motion_of};
ghost use Rattle.closure.specs.Groups.{group_listing};
ghost use Rattle.closure.specs.declared.group.TheConstants.{MAX_ENTRY};
ghost use Rattle.plane_motions.specs.PlaneMotions.{IsFlat};
ghost use Rattle.plane_groups.specs.PlaneGroups.{IsFlatGroup};

use crate::make::lines;
use crate::scan::{LineHeight, LineScan};
use closure::{Group, GroupError};
use fractions::{Part, UNIT};
use motions::{Listed, Miller, Motion3};
use plane_motions::Motion2;
use std::alloc::Global;
use std::test::Fail;

const EDGE: Part = Part(UNIT);

const HALF: Part = Part(UNIT / 2);

const NONE: Part = Part(0);

// x,y
const IDENTITY: Motion3 = Motion3 {
    w: [[1, 0, 0], [0, 1, 0], [0, 0, 1]],
    t: [NONE, NONE, NONE],
};

// -x,-y
const TURN: Motion3 = Motion3 {
    w: [[-1, 0, 0], [0, -1, 0], [0, 0, 1]],
    t: [NONE, NONE, NONE],
};

// -x+1/2,y
const MIRROR: Motion3 = Motion3 {
    w: [[-1, 0, 0], [0, 1, 0], [0, 0, 1]],
    t: [HALF, NONE, NONE],
};

// x+1/2,-y
const GLIDE: Motion3 = Motion3 {
    w: [[1, 0, 0], [0, -1, 0], [0, 0, 1]],
    t: [HALF, NONE, NONE],
};

// The motion of the plane with a diagonal matrix.
fn diagonal(x: i64, y: i64, t: [Part; 2]) -> Motion2 {
    Motion2 {
        w: [[x, 0], [0, y]],
        t,
    }
}

fn group_of(alloc: Global, ops: &[Motion3]) -> Result<Group, GroupError>
    requires small { All (λ m. IsSmallWithin (unsigned_abs MAX_ENTRY) (motion_of m)) ops.now }
    requires flat { All (λ m. IsFlat (motion_of m)) ops.now }
    ensures { IfOk result (λ group. IsFlatGroup (group_listing group)) }
{
    let ops = Vec::from_slice(alloc, ops)?;
    let listed = Listed {
        ops,
        centrings: Vec::new(alloc),
        generated: false,
    };
    Group::make(alloc, listed)
}

// The lines (h k) of p2mg.
fn lines_of_p2mg(alloc: Global, h: i64, k: i64) -> Result<LineScan, Fail> {
    let group = group_of(alloc, &[IDENTITY, TURN, MIRROR, GLIDE])?;
    let plane = Miller::make(h, k, 0)?;
    Ok(lines(alloc, &group, plane)?)
}

// Whether the height is num/den, with a type of this number about the origin x, and these operations.
fn is_height(
    height: &LineHeight,
    num: i128,
    den: i128,
    number: u8,
    x: u32,
    ops: &[Motion2],
) -> bool {
    let found = &height.section.found;
    height.s.num() == num
        && height.s.den() == den
        && found.number == number
        && found.x == x
        && height.section.ops.as_slice() == ops
}

#[test]
fn lines_along_the_mirrors_of_p2mg_have_mirrors_across_them(rt: HostRuntime) -> Result<(), Fail> {
    let scan = lines_of_p2mg(rt.alloc(), 0, 1)?;
    let one = diagonal(1, 1, [NONE, NONE]);
    let mirror = diagonal(-1, 1, [HALF, NONE]);
    let turn = diagonal(-1, -1, [NONE, NONE]);
    let glide = diagonal(1, -1, [HALF, NONE]);
    let next_turn = diagonal(-1, -1, [NONE, EDGE]);
    let next_glide = diagonal(1, -1, [HALF, EDGE]);
    assert!(rt; scan.h == 0 && scan.k == 1 && scan.period == EDGE);
    assert!(rt; scan.a == [EDGE, NONE] && scan.tau == [NONE, EDGE]);
    assert!(rt; scan.c[0].num() == 0 && scan.c[1].num() == 1 && scan.c[1].den() == 1);
    assert!(rt; scan.general.found.number == 3 && scan.general.found.x == 48);
    assert!(rt; scan.general.ops.as_slice() == [one, mirror].as_slice());
    assert!(rt; scan.heights.len() == 2);
    assert!(rt; is_height(&scan.heights[0], 0, 1, 7, 0, &[one, turn, mirror, glide]));
    assert!(rt;
        is_height(
            &scan.heights[1],
            1,
            2,
            7,
            0,
            &[one, next_turn, mirror, next_glide]
        )
    );
    Ok(())
}

#[test]
fn lines_across_the_mirrors_of_p2mg_have_half_turns_or_mirrors(
    rt: HostRuntime,
) -> Result<(), Fail> {
    let scan = lines_of_p2mg(rt.alloc(), 1, 0)?;
    let one = diagonal(1, 1, [NONE, NONE]);
    let turn = diagonal(-1, -1, [NONE, NONE]);
    let mirror = diagonal(-1, 1, [HALF, NONE]);
    let next_turn = diagonal(-1, -1, [EDGE, NONE]);
    let next_mirror = diagonal(-1, 1, [Part(3 * UNIT / 2), NONE]);
    assert!(rt; scan.h == 1 && scan.k == 0 && scan.period == EDGE);
    assert!(rt; scan.a == [NONE, EDGE] && scan.tau == [EDGE, NONE]);
    assert!(rt; scan.c[0].num() == 1 && scan.c[0].den() == 1 && scan.c[1].num() == 0);
    assert!(rt; scan.general.found.number == 1 && scan.general.found.x == 0);
    assert!(rt; scan.general.ops.as_slice() == [one].as_slice());
    assert!(rt; scan.heights.len() == 4);
    assert!(rt; is_height(&scan.heights[0], 0, 1, 2, 0, &[one, turn]));
    assert!(rt; is_height(&scan.heights[1], 1, 4, 4, 0, &[one, mirror]));
    assert!(rt; is_height(&scan.heights[2], 1, 2, 2, 0, &[one, next_turn]));
    assert!(rt; is_height(&scan.heights[3], 3, 4, 4, 0, &[one, next_mirror]));
    Ok(())
}
