// Sections along known lines, by hand: the types in their own settings and about other origins, and the lines of
// a group of the plane.
ghost use Rattle.std.specs.Prelude.{All};
ghost use Rattle.friezes.specs.Sections.{IsSmallLine};

use crate::{EDGE, GRID, LineOp, LineOpShifts, frieze_type, is_section};
use motions::Sign;
use quotient::{Motion, Quotient, find};

macro_rules! line_op {
    ($along:ident, $across:ident, $shift:expr) => {
        LineOp { f: Sign::$along, e: Sign::$across, t: $shift }
    };
}

const ONE: LineOp = line_op!(Plus, Plus, 0);

const MIRROR: LineOp = line_op!(Plus, Minus, 0);

const GLIDE: LineOp = line_op!(Plus, Minus, EDGE / 2);

const MIRROR_ACROSS: LineOp = line_op!(Minus, Plus, 0);

// -x+1/2,y
const MIRROR_AT_A_QUARTER: LineOp = line_op!(Minus, Plus, EDGE / 2);

const HALF_TURN: LineOp = line_op!(Minus, Minus, 0);

// Whether the list is a section with this first change.
fn is_found(section: &[LineOp], number: u8, x: u32) -> bool
    requires { All IsSmallLine section.now }
{
    if !is_section(section) {
        return false;
    }
    let found = frieze_type(section);
    found.number == number && found.x == x
}

#[test]
fn each_type_is_found_in_its_own_setting(rt: HostRuntime) {
    assert!(rt; is_found(&[ONE], 1, 0));
    assert!(rt; is_found(&[ONE, HALF_TURN], 2, 0));
    assert!(rt; is_found(&[ONE, MIRROR_ACROSS], 3, 0));
    assert!(rt; is_found(&[ONE, MIRROR], 4, 0));
    assert!(rt; is_found(&[ONE, GLIDE], 5, 0));
    assert!(rt; is_found(&[ONE, MIRROR, MIRROR_ACROSS, HALF_TURN], 6, 0));
    assert!(rt; is_found(&[ONE, GLIDE, MIRROR_AT_A_QUARTER, HALF_TURN], 7, 0));
}

// What turns the line moves by a quarter of an edge, where the origin of the type lies at an eighth.
const QUARTER: i64 = EDGE / 4;

#[test]
fn a_type_is_found_about_another_origin(rt: HostRuntime) {
    let turn = line_op!(Minus, Minus, QUARTER - EDGE);
    let across = line_op!(Minus, Plus, QUARTER);
    let glide = line_op!(Plus, Minus, EDGE / 2 + 3 * EDGE);
    let across_beside_a_glide = line_op!(Minus, Plus, QUARTER - EDGE / 2);
    assert!(rt; is_found(&[line_op!(Plus, Plus, 5 * EDGE)], 1, 0));
    assert!(rt; is_found(&[turn, ONE], 2, GRID / 8));
    assert!(rt; is_found(&[across, ONE], 3, GRID / 8));
    assert!(rt; is_found(&[line_op!(Plus, Minus, -EDGE), ONE], 4, 0));
    assert!(rt; is_found(&[glide, ONE], 5, 0));
    assert!(rt; is_found(&[turn, across, MIRROR, ONE], 6, GRID / 8));
    assert!(rt; is_found(&[turn, across_beside_a_glide, glide, ONE], 7, GRID / 8));
}

// The operations x,y; -x,-y; -x+1/2,y; x+1/2,-y, on lines along x and on lines along y.
#[test]
fn the_lines_of_a_group_have_these_types(rt: HostRuntime) {
    // Along x in general, and through the half-turns.
    assert!(rt; is_found(&[ONE, MIRROR_AT_A_QUARTER], 3, GRID / 4));
    assert!(rt; is_found(&[ONE, HALF_TURN, MIRROR_AT_A_QUARTER, GLIDE], 7, 0));
    // Along y in general, through the half-turns, and in the mirrors.
    assert!(rt; is_found(&[ONE], 1, 0));
    assert!(rt; is_found(&[ONE, HALF_TURN], 2, 0));
    assert!(rt; is_found(&[ONE, MIRROR], 4, 0));
}

#[test]
fn a_list_that_is_no_group_is_no_section(rt: HostRuntime) {
    assert!(rt; !is_section(&[]));
    assert!(rt; !is_section(&[HALF_TURN]));
    assert!(rt; !is_section(&[ONE, line_op!(Plus, Minus, QUARTER)]));
    assert!(rt; !is_section(&[ONE, MIRROR, MIRROR_ACROSS]));
}

#[test]
fn a_group_with_half_an_edge_is_no_section(rt: HostRuntime) {
    assert!(rt; !is_section(&[ONE, line_op!(Plus, Plus, EDGE / 2)]));
}

fn twice<M: Motion>(motion: &M) -> M
    requires { M.IsSmall (M.meaning motion.now) }
{
    motion.then(motion)
}

#[test]
fn a_glide_and_then_a_mirror_across_is_a_half_turn(rt: HostRuntime) {
    let turn = line_op!(Minus, Minus, -EDGE / 2);
    assert!(rt; GLIDE.then(&MIRROR_ACROSS) == turn);
    assert!(rt; turn.back() == Some(turn));
    assert!(rt; GLIDE.back() == Some(line_op!(Plus, Minus, -EDGE / 2)));
    assert!(rt; twice(&GLIDE) == line_op!(Plus, Plus, EDGE));
}

#[test]
fn whole_edges_are_shifts(rt: HostRuntime) {
    assert!(rt; LineOpShifts.is_shift(&line_op!(Plus, Plus, 3 * EDGE)));
    assert!(rt; !LineOpShifts.is_shift(&GLIDE));
    assert!(rt; LineOpShifts.keeps(&GLIDE));
    assert!(rt; LineOpShifts.home(&line_op!(Minus, Plus, -EDGE / 2)) == MIRROR_AT_A_QUARTER);
    assert_eq!(rt;
        find(
            &LineOpShifts,
            &[ONE, GLIDE],
            &line_op!(Plus, Minus, -EDGE / 2)
        ),
        Some(1)
    );
}
