// Tables of texts, made by hand from the grammar.
ghost use Rattle.std.specs.Prelude.{◌≤◌, length};

use crate::fault::{TextFault, TextKind, TripletFault};
use crate::group::{MOST_BYTES, read_group};
use crate::text::LineReader;
use crate::triplet::read_triplet;
use fractions::{Part, UNIT};
use motions::Listed;
use std::alloc::Global;
use std::process::Abort;
use std::test::Fail;

/// A bad line, and its column and kind.
#[derive(Clone, Copy)]
pub struct BadLine(pub &'static str, pub u32, pub TextKind);

/// A text, and how many operations and centring vectors it lists.
#[derive(Clone, Copy)]
pub struct GoodText(pub &'static str, pub usize, pub usize);

/// A bad triplet, and its place and kind.
#[derive(Clone, Copy)]
struct BadTriplet(&'static str, usize, TextKind);

/// What is compared of an answer.
#[derive(Clone, Copy, Debug, PartialEq, Eq)]
pub struct Summary {
    pub fault: Option<TextFault>,
    pub ops: usize,
    pub centrings: usize,
    pub generated: bool,
}

impl Summary {
    /// The answer to a text that lists so many.
    pub fn of_listed(ops: usize, centrings: usize, generated: bool) -> Summary {
        Summary {
            fault: None,
            ops,
            centrings,
            generated,
        }
    }

    /// The answer to a text with this fault.
    pub fn of_fault(line: u32, column: u32, kind: TextKind) -> Summary {
        Summary {
            fault: Some(TextFault::At { line, column, kind }),
            ops: 0,
            centrings: 0,
            generated: false,
        }
    }
}

pub fn summary_of(answer: Result<Listed, TextFault>) -> Summary {
    match answer {
        Ok(listed) => {
            Summary::of_listed(listed.ops.len(), listed.centrings.len(), listed.generated)
        }
        Err(fault) => Summary {
            fault: Some(fault),
            ops: 0,
            centrings: 0,
            generated: false,
        },
    }
}

fn read_in_pieces(alloc: Global, bytes: &[u8], size: usize) -> Result<Listed, TextFault>
    requires few { length bytes.now ≤ 65536 }
    requires some { 1 ≤ size }
    requires small { size ≤ 3 }
{
    let mut reader = LineReader::make(alloc);
    let mut start = 0;
    while start < bytes.len() {
        let end = (start + size).min(bytes.len());
        reader.feed(&bytes[start..end])?;
        start = end;
    }
    reader.finish()
}

pub fn compare(rt: &(impl Abort + Print), alloc: Global, text: &str, want: Summary) {
    let bytes = text.as_bytes();
    assert!(rt; bytes.len() <= MOST_BYTES);
    assert_eq!(rt; summary_of(read_group(alloc, bytes)), want, "{text}");
    for size in 1..4 {
        assert_eq!(rt;
            summary_of(read_in_pieces(alloc, bytes, size)),
            want,
            "{text} in pieces of {size}"
        );
    }
}

static BAD_LINES: [BadLine; 111] = [
    // a part too few, too many or empty
    BadLine("x", 2, TextKind::MissingPart),
    BadLine("x,y", 4, TextKind::MissingPart),
    BadLine("x,y,", 5, TextKind::MissingPart),
    BadLine("x,y\r", 5, TextKind::MissingPart),
    BadLine("x,y,z,x", 6, TextKind::ExtraPart),
    BadLine("x,y,z ,", 7, TextKind::ExtraPart),
    BadLine("x,y,1/2,", 8, TextKind::ExtraPart),
    BadLine("x,,z", 3, TextKind::Empty),
    BadLine("x, ,z", 4, TextKind::Empty),
    BadLine(",x", 1, TextKind::Empty),
    BadLine(" ,", 2, TextKind::Empty),
    BadLine("(1),", 4, TextKind::Empty),
    // signs
    BadLine("+x", 3, TextKind::MissingPart),
    BadLine("x+", 3, TextKind::MissingPart),
    BadLine("x-", 3, TextKind::MissingPart),
    BadLine("(1)+", 5, TextKind::MissingPart),
    BadLine("--x", 2, TextKind::UnknownSign),
    BadLine("x+-y", 3, TextKind::UnknownSign),
    BadLine("x+,y,z", 3, TextKind::UnknownSign),
    BadLine("x,y,+,", 6, TextKind::UnknownSign),
    // letters
    BadLine("x+x,y,z", 3, TextKind::Repeated),
    BadLine("X+y+x,y,z", 5, TextKind::Repeated),
    BadLine("x x,y,z", 3, TextKind::Repeated),
    BadLine("x+2x", 4, TextKind::Repeated),
    BadLine("x+12x,y,z", 5, TextKind::Repeated),
    BadLine("x+1/x", 5, TextKind::Repeated),
    BadLine("xy", 2, TextKind::UnknownSign),
    BadLine("x y", 3, TextKind::UnknownSign),
    BadLine("x2", 2, TextKind::UnknownSign),
    BadLine("x 2", 3, TextKind::UnknownSign),
    BadLine("x,y,z x", 7, TextKind::UnknownSign),
    BadLine("a", 1, TextKind::UnknownSign),
    // coefficients
    BadLine("0x", 2, TextKind::Coefficient),
    BadLine("10x,y,z", 3, TextKind::Coefficient),
    BadLine("2/3x,y,z", 4, TextKind::Coefficient),
    BadLine("1 x", 3, TextKind::UnknownSign),
    BadLine("1/2 x,y,z", 5, TextKind::UnknownSign),
    BadLine("1/x", 3, TextKind::UnknownSign),
    // numbers
    BadLine("1000+x,y,z", 4, TextKind::Coefficient),
    BadLine("x+1000", 6, TextKind::Coefficient),
    BadLine("x+1/5,y,z", 5, TextKind::Denominator),
    BadLine("x+1/0", 5, TextKind::Denominator),
    BadLine("x+1/02", 5, TextKind::Denominator),
    BadLine("x+1/10", 6, TextKind::Denominator),
    BadLine("x+1/49,y,z", 6, TextKind::Denominator),
    BadLine("x+1/481", 7, TextKind::Denominator),
    BadLine("x+1/2/2,y,z", 6, TextKind::UnknownSign),
    BadLine("x+0.5,y,z", 4, TextKind::UnknownSign),
    BadLine("1 2", 3, TextKind::UnknownSign),
    BadLine("1\r2", 3, TextKind::UnknownSign),
    BadLine("1 /2", 3, TextKind::UnknownSign),
    BadLine("1/ 2", 3, TextKind::UnknownSign),
    BadLine("1//2", 3, TextKind::UnknownSign),
    BadLine("/2", 1, TextKind::UnknownSign),
    BadLine("x,y,1/,", 7, TextKind::UnknownSign),
    // other bytes
    BadLine("x;y;z", 2, TextKind::UnknownSign),
    BadLine("*", 1, TextKind::UnknownSign),
    BadLine("x)", 2, TextKind::UnknownSign),
    BadLine("1)", 2, TextKind::UnknownSign),
    BadLine("x(", 2, TextKind::UnknownSign),
    BadLine("x,y,z;", 6, TextKind::UnknownSign),
    // comments too early
    BadLine("x#", 2, TextKind::MissingPart),
    BadLine("x,#", 3, TextKind::MissingPart),
    BadLine("x,y,1/#", 7, TextKind::MissingPart),
    BadLine("x,y,z+#", 7, TextKind::MissingPart),
    BadLine("(#", 2, TextKind::MissingPart),
    BadLine("(1#", 3, TextKind::MissingPart),
    BadLine("(1)#", 4, TextKind::MissingPart),
    BadLine("(0,#", 4, TextKind::MissingPart),
    BadLine("(0,0,0)#", 8, TextKind::MissingPart),
    // labels
    BadLine("(12)", 5, TextKind::MissingPart),
    BadLine("(1234", 5, TextKind::Coefficient),
    BadLine("(12x", 4, TextKind::Coefficient),
    BadLine("( 1) x,y,z", 4, TextKind::MissingPart),
    BadLine("(12 )x,y,z", 5, TextKind::MissingPart),
    BadLine("()", 2, TextKind::UnknownSign),
    BadLine("(1)(2) x,y,z", 4, TextKind::UnknownSign),
    BadLine("(1)(0,0,0)+", 4, TextKind::UnknownSign),
    BadLine("(1)2)", 5, TextKind::UnknownSign),
    BadLine("x,y,z (1)", 7, TextKind::UnknownSign),
    // centring vectors
    BadLine("(", 2, TextKind::MissingPart),
    BadLine("(0", 3, TextKind::MissingPart),
    BadLine("(0,0,0", 7, TextKind::MissingPart),
    BadLine("(0,0,0)", 8, TextKind::MissingPart),
    BadLine("(1/2,1/2)+", 9, TextKind::MissingPart),
    BadLine("(1/2,1/2 )+", 10, TextKind::MissingPart),
    BadLine("(-1)", 4, TextKind::MissingPart),
    BadLine("(0,0,)", 6, TextKind::UnknownSign),
    BadLine("(+)", 3, TextKind::UnknownSign),
    BadLine("(1/)", 4, TextKind::UnknownSign),
    BadLine("(0,0,0,", 7, TextKind::ExtraPart),
    BadLine("(0,0,0 ,", 8, TextKind::ExtraPart),
    BadLine("(,", 2, TextKind::Empty),
    BadLine("(0,,", 4, TextKind::Empty),
    BadLine("(0,+,", 5, TextKind::UnknownSign),
    BadLine("(x", 2, TextKind::UnknownSign),
    BadLine("(0+1", 3, TextKind::UnknownSign),
    BadLine("(--1", 3, TextKind::UnknownSign),
    BadLine("(1/5", 4, TextKind::Denominator),
    BadLine("(1/2x", 5, TextKind::Coefficient),
    BadLine("((", 2, TextKind::UnknownSign),
    BadLine("(0,0,0))", 8, TextKind::UnknownSign),
    BadLine("(0,0,0)-", 8, TextKind::UnknownSign),
    BadLine("(0,0,0),", 8, TextKind::UnknownSign),
    BadLine("(0,0,0)x", 8, TextKind::UnknownSign),
    BadLine("(0,0,0)+,", 9, TextKind::UnknownSign),
    BadLine("(0,0,0)+x", 9, TextKind::UnknownSign),
    BadLine("(0,0,0)+1", 9, TextKind::UnknownSign),
    BadLine("(0,0,0)++", 9, TextKind::UnknownSign),
    BadLine("(0,0,0)+(0", 11, TextKind::MissingPart),
    BadLine("(0,0,0)+(1)", 11, TextKind::MissingPart),
];

static GOOD_TEXTS: [GoodText; 31] = [
    GoodText("", 0, 0),
    GoodText("\r", 0, 0),
    GoodText(" \t ", 0, 0),
    GoodText("\n\n", 0, 0),
    GoodText("#", 0, 0),
    GoodText(" # x;y;z", 0, 0),
    GoodText("x,y,z", 1, 0),
    GoodText("X,Y,Z\n", 1, 0),
    GoodText("\tx\t,\ty , z\r", 1, 0),
    GoodText("+ x,- y,-z", 1, 0),
    GoodText("0,0,0", 1, 0),
    GoodText("x+1/48,y,z", 1, 0),
    GoodText("01/2+x,y,z", 1, 0),
    GoodText("1x,y,z", 1, 0),
    GoodText("999,1/1,000", 1, 0),
    GoodText("1+1+1/2-1/3,y,z", 1, 0),
    GoodText("x,y,z# (1", 1, 0),
    GoodText("x,y,z #", 1, 0),
    GoodText("(1)x,y,z", 1, 0),
    GoodText("\t(123)\tx,y,z", 1, 0),
    GoodText("(1)+x,y,z", 1, 0),
    GoodText("(1) 1/2,y,z", 1, 0),
    GoodText("x,y,z\n-x,-y,-z", 2, 0),
    GoodText("x,y,z\n\nx,y,z\n", 2, 0),
    GoodText("(0,0,0)+", 0, 1),
    GoodText("(0,0,0)+(1/2,1/2,0)+", 0, 2),
    GoodText("( 1/2 , 0,0 ) +", 0, 1),
    GoodText("(1/2,1/2,0) + # c", 0, 1),
    GoodText("(+1/3,- 2/3,2/3)+ \t(0,0,1)+", 0, 2),
    GoodText("(2/3,1/3,1/3)+#\n(1/3,2/3,2/3)+#", 0, 2),
    GoodText("x,y,z\n(0,0,0)+(1/2,1/2,1/2)+\r\n-x,y,z", 2, 2),
];

static BAD_TRIPLETS: [BadTriplet; 10] = [
    BadTriplet("", 1, TextKind::MissingPart),
    BadTriplet("x,y", 4, TextKind::MissingPart),
    BadTriplet("x,y#", 4, TextKind::MissingPart),
    BadTriplet("x,y,z#", 6, TextKind::UnknownSign),
    BadTriplet("x,y,z #", 7, TextKind::UnknownSign),
    BadTriplet("x,y,z+#", 7, TextKind::MissingPart),
    BadTriplet("x,y,z\n", 6, TextKind::UnknownSign),
    BadTriplet("(1)x,y,z", 1, TextKind::UnknownSign),
    BadTriplet("x+1/5,y,z", 5, TextKind::Denominator),
    BadTriplet("x,y,z,", 6, TextKind::ExtraPart),
];

#[test]
fn a_bad_line_has_its_column_and_kind(rt: HostRuntime) {
    for BadLine(text, column, kind) in BAD_LINES {
        compare(&rt, rt.alloc(), text, Summary::of_fault(1, column, kind));
    }
}

#[test]
fn a_good_text_lists_its_operations_and_vectors(rt: HostRuntime) {
    for GoodText(text, ops, centrings) in GOOD_TEXTS {
        compare(
            &rt,
            rt.alloc(),
            text,
            Summary {
                fault: None,
                ops,
                centrings,
                generated: false,
            },
        );
    }
}

#[test]
fn the_first_bad_line_counts(rt: HostRuntime) {
    let want = Summary::of_fault(2, 4, TextKind::MissingPart);
    compare(&rt, rt.alloc(), "x,y,z\nx,y", want);
    compare(&rt, rt.alloc(), "\nx,y\nx,y,z", want);
    let want = Summary::of_fault(2, 5, TextKind::MissingPart);
    compare(&rt, rt.alloc(), "(0,0,0)+\nx,y\r\nx;y", want);
}

#[test]
fn a_bad_triplet_has_its_place_and_kind(rt: HostRuntime) {
    for BadTriplet(text, place, kind) in BAD_TRIPLETS {
        let bytes = text.as_bytes();
        assert!(rt; bytes.len() <= MOST_BYTES);
        match read_triplet(bytes) {
            Ok(_) => assert!(rt; false, "read {text}"),
            Err(fault) => assert_eq!(rt; fault, TripletFault { place, kind }, "{text}"),
        }
    }
}

#[test]
fn a_triplet_has_its_motion(rt: HostRuntime) {
    match read_triplet(b" -2X + y -1/2, 3 -z + 1/8, 1/3 - 2 ") {
        Ok(m) => {
            assert_eq!(rt; m.w, [[-2, 1, 0], [0, 0, -1], [0, 0, 0]]);
            assert_eq!(rt;
                m.t,
                [
                    Part(-UNIT / 2),
                    Part(3 * UNIT + UNIT / 8),
                    Part(UNIT / 3 - 2 * UNIT)
                ]
            );
        }
        Err(_) => assert!(rt; false, "refused"),
    }
}

#[test]
fn labels_comments_and_blank_lines(rt: HostRuntime) {
    let text = b"(1) X, Y, Z\r\n# centre\r\n(2) -x, 0-y,-z\r\n\r\n(1/2,-1/3,2)+";
    match read_group(rt.alloc(), text) {
        Ok(listed) => {
            assert_eq!(rt; listed.ops.len(), 2);
            assert_eq!(rt; listed.ops[0].w, [[1, 0, 0], [0, 1, 0], [0, 0, 1]]);
            assert_eq!(rt; listed.ops[1].w, [[-1, 0, 0], [0, -1, 0], [0, 0, -1]]);
            assert_eq!(rt; listed.ops[1].t, [Part(0), Part(0), Part(0)]);
            assert_eq!(rt; listed.centrings.len(), 1);
            assert_eq!(rt;
                listed.centrings[0],
                [Part(UNIT / 2), Part(-UNIT / 3), Part(2 * UNIT)]
            );
        }
        Err(_) => assert!(rt; false, "refused"),
    }
}
