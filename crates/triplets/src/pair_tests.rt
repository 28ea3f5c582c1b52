// Tables of texts of pairs, made by hand from the grammar.
use crate::fault::TextKind;
use crate::group::{MOST_BYTES, read_pairs};
use crate::tests::{BadLine, GoodText, Summary, summary_of};
use fractions::{Part, UNIT};

static GOOD_TEXTS: [GoodText; 12] = [
    GoodText("", 0, 0),
    GoodText("x,y", 1, 0),
    GoodText("X , Y # z", 1, 0),
    GoodText("(1) x,y\n(2) -x,-y", 2, 0),
    GoodText("x,y\n-x,-y\n-x+1/2,y\nx+1/2,-y\n", 4, 0),
    GoodText("x-y,x\r\n-y,x-y\r\n", 2, 0),
    GoodText("(1/2,1/2)+", 0, 1),
    GoodText("( 0 , 0 ) + (1/2,1/2)+ # c", 0, 2),
    GoodText("(1/3,-2/3)+\nx,y", 1, 1),
    GoodText("0,0", 1, 0),
    GoodText("9x-9y+999,y", 1, 0),
    GoodText("# z,z,z\n", 0, 0),
];

static BAD_LINES: [BadLine; 30] = [
    // a part too few, too many or empty
    BadLine("x", 2, TextKind::MissingPart),
    BadLine("x,", 3, TextKind::MissingPart),
    BadLine("x#", 2, TextKind::MissingPart),
    BadLine("x,y,z", 4, TextKind::ExtraPart),
    BadLine("x,y,", 4, TextKind::ExtraPart),
    BadLine("x,1/2 ,", 7, TextKind::ExtraPart),
    BadLine("(1) x,y,0", 8, TextKind::ExtraPart),
    BadLine("x,,", 3, TextKind::Empty),
    BadLine(",y", 1, TextKind::Empty),
    BadLine("x,y+,", 5, TextKind::UnknownSign),
    // the letter z
    BadLine("x,z", 3, TextKind::UnknownSign),
    BadLine("z,x", 1, TextKind::UnknownSign),
    BadLine("Z", 1, TextKind::UnknownSign),
    BadLine("x,y+Z", 5, TextKind::UnknownSign),
    BadLine("x,2z", 4, TextKind::UnknownSign),
    BadLine("x,12z", 5, TextKind::UnknownSign),
    BadLine("x,yz", 4, TextKind::UnknownSign),
    // letters and numbers
    BadLine("x+x,y", 3, TextKind::Repeated),
    BadLine("x,y+12x", 7, TextKind::Coefficient),
    BadLine("x+1/5,y", 5, TextKind::Denominator),
    BadLine("x+1000", 6, TextKind::Coefficient),
    // vectors
    BadLine("(1/2)", 5, TextKind::MissingPart),
    BadLine("(1/2,)", 6, TextKind::UnknownSign),
    BadLine("(1/2,1/2", 9, TextKind::MissingPart),
    BadLine("(1/2,1/2)", 10, TextKind::MissingPart),
    BadLine("(1/2,1/2,0)+", 9, TextKind::ExtraPart),
    BadLine("(1/2,,", 6, TextKind::Empty),
    BadLine("(1/2,1/2)+x", 11, TextKind::UnknownSign),
    BadLine("(1/2,y", 6, TextKind::UnknownSign),
    BadLine("(0,1z", 5, TextKind::UnknownSign),
];

#[test]
fn texts_of_pairs_are_read(rt: HostRuntime) {
    for GoodText(text, ops, centrings) in GOOD_TEXTS {
        let bytes = text.as_bytes();
        assert!(rt; bytes.len() <= MOST_BYTES);
        let want = Summary::of_listed(ops, centrings, false);
        assert_eq!(rt; summary_of(read_pairs(rt.alloc(), bytes)), want, "{text}");
    }
}

#[test]
fn the_heading_makes_generators_of_a_plane_group(rt: HostRuntime) {
    let text = b"generators # p6\nx-y,x\n";
    let want = Summary::of_listed(1, 0, true);
    assert_eq!(rt; summary_of(read_pairs(rt.alloc(), text)), want);
}

#[test]
fn a_bad_line_of_pairs_has_its_column_and_kind(rt: HostRuntime) {
    for BadLine(text, column, kind) in BAD_LINES {
        let bytes = text.as_bytes();
        assert!(rt; bytes.len() <= MOST_BYTES);
        let want = Summary::of_fault(1, column, kind);
        assert_eq!(rt; summary_of(read_pairs(rt.alloc(), bytes)), want, "{text}");
    }
}

#[test]
fn a_pair_is_a_triplet_that_leaves_z_as_it_is(rt: HostRuntime) {
    match read_pairs(rt.alloc(), b"(1) -y+1/2,x-y-1/3\n(1/2,-1/6)+") {
        Ok(listed) => {
            assert_eq!(rt; listed.ops.len(), 1);
            assert_eq!(rt; listed.ops[0].w, [[0, -1, 0], [1, -1, 0], [0, 0, 1]]);
            assert_eq!(rt; listed.ops[0].t, [Part(UNIT / 2), Part(-UNIT / 3), Part(0)]);
            assert_eq!(rt; listed.centrings.len(), 1);
            assert_eq!(rt;
                listed.centrings[0],
                [Part(UNIT / 2), Part(-UNIT / 6), Part(0)]
            );
        }
        Err(_) => assert!(rt; false, "refused"),
    }
}
