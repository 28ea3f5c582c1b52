// Runs over devices that fail.
use crate::tests::{ALONG_C, Ran, run_between};
use devices::{BytesSink, BytesSource};
use requests::{Outcome, Refusal};
use std::test::Fail;
use vectors::{INVERSION, INVERSION_REPORT};

// A sink with this room that takes 10 bytes a call, and fails at the listed calls.
fn sink(rt: &HostRuntime, room: usize, failing: &[u64]) -> Result<BytesSink, Fail> {
    let failing = Vec::from_slice(rt.alloc(), failing)?;
    Ok(BytesSink::make(rt.alloc(), room, 10, failing)?)
}

// A run along c over a source that gives single bytes, and fails at the listed calls.
fn run_from(rt: &HostRuntime, failing: &[u64]) -> Result<Ran, Fail> {
    let input = Vec::from_slice(rt.alloc(), INVERSION)?;
    let source = BytesSource::make(input, 1, Vec::from_slice(rt.alloc(), failing)?);
    run_between(
        rt,
        &ALONG_C,
        source,
        sink(rt, 318, &[])?,
        sink(rt, 100, &[])?,
    )
}

// A run along c over a sink that takes 10 bytes a call.
fn run_into(rt: &HostRuntime, room: usize, failing: &[u64]) -> Result<Ran, Fail> {
    let input = Vec::from_slice(rt.alloc(), INVERSION)?;
    let source = BytesSource::make(input, 4096, Vec::new(rt.alloc()));
    run_between(
        rt,
        &ALONG_C,
        source,
        sink(rt, room, failing)?,
        sink(rt, 100, &[])?,
    )
}

#[test]
fn the_input_has_15_bytes_and_the_output_318(rt: HostRuntime) {
    assert_eq!(rt; INVERSION.len(), 15);
    assert_eq!(rt; INVERSION_REPORT.len(), 318);
}

#[test]
fn a_source_that_fails_up_to_its_end_is_a_read_fault(rt: HostRuntime) -> Result<(), Fail> {
    for call in 1..=16 {
        let ran = run_from(&rt, &[call])?;
        assert!(rt; ran.ended(Outcome::ReadFault, b"", b""), "{call}");
    }
    Ok(())
}

#[test]
fn a_source_that_fails_behind_a_bad_line_is_a_read_fault(rt: HostRuntime) -> Result<(), Fail> {
    let input = Vec::from_slice(rt.alloc(), b"?\nx,y,z\n")?;
    let source = BytesSource::make(input, 2, Vec::from_slice(rt.alloc(), &[3])?);
    let ran = run_between(
        &rt,
        &ALONG_C,
        source,
        sink(&rt, 318, &[])?,
        sink(&rt, 100, &[])?,
    )?;
    assert!(rt; ran.ended(Outcome::ReadFault, b"", b""));
    Ok(())
}

#[test]
fn a_source_is_not_asked_beyond_its_end(rt: HostRuntime) -> Result<(), Fail> {
    let ran = run_from(&rt, &[17])?;
    assert!(rt; ran.ended(Outcome::Done, INVERSION_REPORT, b""));
    Ok(())
}

#[test]
fn a_sink_that_fails_holds_the_pieces_before(rt: HostRuntime) -> Result<(), Fail> {
    for pieces in 0..32_u8 {
        let ran = run_into(&rt, 318, &[u64::from(pieces) + 1])?;
        let held = &INVERSION_REPORT[..10 * usize::from(pieces)];
        assert!(rt; ran.ended(Outcome::WriteFault, held, b""), "{pieces}");
    }
    Ok(())
}

#[test]
fn a_sink_is_not_offered_a_piece_beyond_the_end(rt: HostRuntime) -> Result<(), Fail> {
    let ran = run_into(&rt, 318, &[33])?;
    assert!(rt; ran.ended(Outcome::Done, INVERSION_REPORT, b""));
    Ok(())
}

#[test]
fn a_sink_with_room_for_all_but_one_byte_fails(rt: HostRuntime) -> Result<(), Fail> {
    let ran = run_into(&rt, 317, &[])?;
    assert!(rt; ran.ended(Outcome::WriteFault, &INVERSION_REPORT[..317], b""));
    Ok(())
}

#[test]
fn a_run_refuses_whether_its_complaint_is_written_or_not(rt: HostRuntime) -> Result<(), Fail> {
    let input = Vec::from_slice(rt.alloc(), b"x,y,z\n-y,x,z\n")?;
    let source = BytesSource::make(input, 4096, Vec::new(rt.alloc()));
    let ran = run_between(
        &rt,
        &ALONG_C,
        source,
        sink(&rt, 318, &[])?,
        sink(&rt, 100, &[1])?,
    )?;
    assert!(rt; ran.ended(Outcome::Refused(Refusal::NotClosed(2, 2)), b"", b""));
    Ok(())
}
