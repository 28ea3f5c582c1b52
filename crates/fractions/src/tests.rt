// Each call once on its happy path, and the texts that the reader refuses.
use crate::{
    FractionFault, NoMemory, Part, Ratio, UNIT, greatest_common_divisor, read_ratio,
    whole_quotient, write_ratio,
};
use std::alloc::Global;
use std::test::Fail;

#[test]
fn a_third_below_an_edge_is_two_thirds_in_it(rt: HostRuntime) {
    let third = Part(UNIT / 3);
    assert_eq!(rt; Part(0).sub(third).reduced(), third.times(2));
    assert_eq!(rt; third.add(Part(UNIT)).reduced(), third);
    assert_eq!(rt; Part(UNIT).reduced(), Part(0));
}

#[test]
fn the_sign_stands_at_the_numerator(rt: HostRuntime) {
    let made = Ratio::make(6, -8);
    assert_eq!(rt; made, Ratio::make(-3, 4));
    assert_eq!(rt; made.map(|ratio| ratio.num()), Some(-3));
    assert_eq!(rt; made.map(|ratio| ratio.den()), Some(4));
    assert_eq!(rt; Ratio::make(1, 0), None);
}

#[test]
fn divisors_and_quotients(rt: HostRuntime) {
    assert_eq!(rt; greatest_common_divisor(84, 30), 6);
    assert_eq!(rt; greatest_common_divisor(0, 0), 0);
    assert_eq!(rt; whole_quotient(-84, 6), Some(-14));
    assert_eq!(rt; whole_quotient(-85, 6), None);
}

#[test]
fn parts_are_shown_in_cell_edges(rt: HostRuntime) -> Result<(), Fail> {
    let part = Part(-UNIT / 4);
    assert_eq!(rt; part.in_edges(), Ratio::make(-1, 4).unwrap());
    let text = format!(in rt.alloc(); "{part}")?;
    assert_eq!(rt; text.as_str(), "-1/4");
    Ok(())
}

fn is_written(alloc: Global, ratio: Ratio, text: &str) -> Result<bool, NoMemory> {
    let written = write_ratio(alloc, ratio)?;
    Ok(written.as_slice() == text.as_bytes())
}

#[test]
fn a_text_is_written_again_in_lowest_terms(rt: HostRuntime) -> Result<(), Fail> {
    let rows = [
        ("1/4", "1/4"),
        ("-6/8", "-3/4"),
        ("+12/4", "3"),
        ("-0/5", "0"),
        ("007", "7"),
        ("999999999999999999/2", "999999999999999999/2"),
    ];
    for (text, lowest) in rows {
        match read_ratio(text.as_bytes(), 0) {
            Ok((ratio, end)) => {
                assert_eq!(rt; end, text.len(), "at {text}");
                assert!(rt; is_written(rt.alloc(), ratio, lowest)?, "at {text}");
            }
            Err(_) => assert!(rt; false, "refused {text}"),
        }
    }
    Ok(())
}

#[test]
fn what_stands_behind_a_ratio_is_left(rt: HostRuntime) {
    let quarter = Ratio::make(1, 4);
    assert_eq!(rt; read_ratio(b"at 1/4,0", 3).ok().map(|read| read.1), Some(6));
    assert_eq!(rt; read_ratio(b"at 1/4/5", 3).ok().map(|read| read.0), quarter);
}

#[test]
fn the_first_fault_from_the_left_is_given(rt: HostRuntime) {
    let rows = [
        ("", FractionFault::NoDigit(0)),
        ("-", FractionFault::NoDigit(1)),
        ("/0", FractionFault::NoDigit(0)),
        ("1/", FractionFault::NoDigit(2)),
        ("1/+2", FractionFault::NoDigit(2)),
        ("1/00", FractionFault::ZeroDenominator(2)),
        ("-1234567890123456789/0", FractionFault::TooLong(19)),
        ("1/0000000000000000000", FractionFault::TooLong(20)),
    ];
    for (text, fault) in rows {
        assert_eq!(rt; read_ratio(text.as_bytes(), 0), Err(fault), "at {text}");
    }
}
