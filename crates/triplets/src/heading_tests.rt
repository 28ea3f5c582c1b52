// Tables of texts of generators, made by hand from the grammar.
use crate::fault::TextKind;
use crate::tests::{BadLine, GoodText, Summary, compare};
use std::test::Fail;

/// A text of several lines, and the line, column and kind of its first fault.
#[derive(Clone, Copy)]
struct BadText(&'static str, u32, u32, TextKind);

static GENERATOR_TEXTS: [GoodText; 9] = [
    GoodText("generators", 0, 0),
    GoodText("generators\n", 0, 0),
    GoodText(" generators # c", 0, 0),
    GoodText("\tgenerators#x;y", 0, 0),
    GoodText("generators\r", 0, 0),
    GoodText(" \t generators \t\r\n\r\n", 0, 0),
    GoodText("generators\n-x,-y,z", 1, 0),
    GoodText("generators\r\n(1) x+1/2,-y,z\n-x,y,-z\n", 2, 0),
    GoodText("generators # two\n-x,-y,z\n(1/2,1/2,0)+", 1, 1),
];

static PLAIN_TEXTS: [GoodText; 5] = [
    GoodText("", 0, 0),
    GoodText(" \t\n-x,-y,z", 1, 0),
    GoodText("# generators", 0, 0),
    GoodText(" # generators\nx,y,z", 1, 0),
    GoodText("x,y,z # generators", 1, 0),
];

static BAD_HEADINGS: [BadLine; 29] = [
    // the word ends too early
    BadLine("g", 2, TextKind::MissingPart),
    BadLine("ge", 3, TextKind::MissingPart),
    BadLine("gen", 4, TextKind::MissingPart),
    BadLine("gene", 5, TextKind::MissingPart),
    BadLine("gener", 6, TextKind::MissingPart),
    BadLine("genera", 7, TextKind::MissingPart),
    BadLine("generat", 8, TextKind::MissingPart),
    BadLine("generato", 9, TextKind::MissingPart),
    BadLine("generator", 10, TextKind::MissingPart),
    BadLine("\t gene", 7, TextKind::MissingPart),
    BadLine("generator#", 10, TextKind::MissingPart),
    BadLine(" g# c", 3, TextKind::MissingPart),
    // any other byte behind some letters
    BadLine("gen erators", 4, TextKind::UnknownSign),
    BadLine("gene ", 5, TextKind::UnknownSign),
    BadLine("gene\r", 5, TextKind::UnknownSign),
    BadLine("gene #", 5, TextKind::UnknownSign),
    BadLine("gx", 2, TextKind::UnknownSign),
    BadLine("g,", 2, TextKind::UnknownSign),
    BadLine("gEnerators", 2, TextKind::UnknownSign),
    // behind the word
    BadLine("generators2", 11, TextKind::UnknownSign),
    BadLine("generators,", 11, TextKind::UnknownSign),
    BadLine("generatorss", 11, TextKind::UnknownSign),
    BadLine("generators x", 12, TextKind::UnknownSign),
    BadLine("generators )", 12, TextKind::UnknownSign),
    BadLine("generators generators", 12, TextKind::UnknownSign),
    // where no word may begin
    BadLine("Generators", 1, TextKind::UnknownSign),
    BadLine("eneratorsg", 1, TextKind::UnknownSign),
    BadLine("x generators", 3, TextKind::UnknownSign),
    BadLine("(1) generators", 5, TextKind::UnknownSign),
];

static BAD_TEXTS: [BadText; 8] = [
    BadText("\ngenerators", 2, 1, TextKind::UnknownSign),
    BadText(" \n generators", 2, 2, TextKind::UnknownSign),
    BadText("# c\ngenerators", 2, 1, TextKind::UnknownSign),
    BadText("x,y,z\ngenerators\n", 2, 1, TextKind::UnknownSign),
    BadText("generators\ngenerators", 2, 1, TextKind::UnknownSign),
    BadText("gene\nx,y", 1, 5, TextKind::MissingPart),
    BadText("gene\r\nx,y,z", 1, 5, TextKind::UnknownSign),
    BadText("generators\nx,y", 2, 4, TextKind::MissingPart),
];

#[test]
fn the_heading_makes_generators(rt: HostRuntime) {
    for GoodText(text, ops, centrings) in GENERATOR_TEXTS {
        compare(
            &rt,
            rt.alloc(),
            text,
            Summary::of_listed(ops, centrings, true),
        );
    }
}

#[test]
fn without_the_heading_there_are_none(rt: HostRuntime) {
    for GoodText(text, ops, centrings) in PLAIN_TEXTS {
        compare(
            &rt,
            rt.alloc(),
            text,
            Summary::of_listed(ops, centrings, false),
        );
    }
}

#[test]
fn a_bad_heading_has_its_column_and_kind(rt: HostRuntime) {
    for BadLine(text, column, kind) in BAD_HEADINGS {
        compare(&rt, rt.alloc(), text, Summary::of_fault(1, column, kind));
    }
}

#[test]
fn the_heading_stands_in_line_1_alone(rt: HostRuntime) {
    for BadText(text, line, column, kind) in BAD_TEXTS {
        compare(&rt, rt.alloc(), text, Summary::of_fault(line, column, kind));
    }
}
