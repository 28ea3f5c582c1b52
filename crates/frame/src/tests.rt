// Worked cases.
use crate::run::run;
use devices::{BytesSink, BytesSource};
use requests::{Outcome, Refusal};
use std::test::Fail;

const INVERSION: &[u8] = b"x,y,z\n-x,-y,-z\n";

// The sinks after a run, and how it ended.
#[derive(Drop)]
struct Ran {
    outcome: Outcome,
    out: BytesSink,
    complaints: BytesSink,
}

impl Ran {
    // Whether it ended so, and wrote exactly this to its sinks.
    fn ended(&self, outcome: Outcome, out: &[u8], complaints: &[u8]) -> bool {
        self.outcome == outcome && self.out.held() == out && self.complaints.held() == complaints
    }
}

// A run over a source and a sink.
fn run_between(
    rt: &HostRuntime,
    words: &[&str],
    mut source: BytesSource,
    mut out: BytesSink,
) -> Result<Ran, Fail> {
    let mut given = Vec::new(rt.alloc());
    for word in words {
        given.push(String::from_str(rt.alloc(), word)?)?;
    }
    let mut complaints = BytesSink::make(rt.alloc(), 1000, 7, Vec::new(rt.alloc()))?;
    let outcome = run(rt.alloc(), &given, &mut source, &mut out, &mut complaints);
    Ok(Ran {
        outcome,
        out,
        complaints,
    })
}

// A run over devices that do not fail, with room for every output here.
fn run_whole(rt: &HostRuntime, words: &[&str], input: &[u8]) -> Result<Ran, Fail> {
    let source = BytesSource::make(
        Vec::from_slice(rt.alloc(), input)?,
        4096,
        Vec::new(rt.alloc()),
    );
    let out = BytesSink::make(rt.alloc(), 4096, 100, Vec::new(rt.alloc()))?;
    run_between(rt, words, source, out)
}

#[test]
fn a_centred_lattice_has_a_tau_to_its_centre(rt: HostRuntime) -> Result<(), Fail> {
    let ran = run_whole(
        &rt,
        &["0", "0", "1"],
        b"(0,0,0)+ (1/2,1/2,1/2)+\nx,y,z\n-x,-y,-z\n",
    )?;
    assert!(rt; ran.ended(Outcome::Done, b"1,0,0 0,1,0 1/2,1/2,1/2\n", b""));
    Ok(())
}

#[test]
fn a_begins_with_a_positive_entry(rt: HostRuntime) -> Result<(), Fail> {
    let ran = run_whole(&rt, &["1", "0", "0"], INVERSION)?;
    assert!(rt; ran.ended(Outcome::Done, b"0,0,1 0,-1,0 1,0,0\n", b""));
    Ok(())
}

#[test]
fn four_indices_are_taken(rt: HostRuntime) -> Result<(), Fail> {
    let ran = run_whole(&rt, &["0", "0", "0", "1"], b"x,y,z\n-y,x-y,z\n-x+y,-x,z\n")?;
    assert!(rt; ran.ended(Outcome::Done, b"1,0,0 0,1,0 0,0,1\n", b""));
    Ok(())
}

#[test]
fn a_cif_file_is_read_where_the_last_word_says_so(rt: HostRuntime) -> Result<(), Fail> {
    let file = b"loop_ _symmetry_equiv_pos_as_xyz x,y,z -x,-y,-z";
    let read = run_whole(&rt, &["1", "0", "0", "--cif"], file)?;
    assert!(rt; read.ended(Outcome::Done, b"0,0,1 0,-1,0 1,0,0\n", b""));
    Ok(())
}

#[test]
fn words_are_refused_as_layers_refuses_them(rt: HostRuntime) -> Result<(), Fail> {
    let further = run_whole(&rt, &["0", "0", "0", "1", "0"], INVERSION)?;
    let usage = Outcome::Refused(Refusal::Usage);
    assert!(rt; further.ended(usage, b"", b"refused: usage\n"));
    let third = run_whole(&rt, &["200", "0", "0", "0"], INVERSION)?;
    let four_index = Outcome::Refused(Refusal::FourIndex);
    assert!(rt; third.ended(four_index, b"", b"refused: third index is not -(h+k)\n"));
    let divisor = run_whole(&rt, &["2", "0", "4"], INVERSION)?;
    let not_coprime = Outcome::Refused(Refusal::NotCoprime(2));
    assert!(rt; divisor.ended(not_coprime, b"", b"refused: common divisor 2\n"));
    Ok(())
}

#[test]
fn what_is_no_group_is_refused(rt: HostRuntime) -> Result<(), Fail> {
    let ran = run_whole(&rt, &["0", "0", "1"], b"x,y,z\n-x,-y,z+1/8\n")?;
    let not_closed = Outcome::Refused(Refusal::NotClosed(2, 2));
    assert!(rt; ran.ended(not_closed, b"", b"refused: product of 2 and 2 missing\n"));
    Ok(())
}

#[test]
fn words_that_are_refused_leave_a_source_that_fails(rt: HostRuntime) -> Result<(), Fail> {
    let input = Vec::from_slice(rt.alloc(), INVERSION)?;
    let source = BytesSource::make(input, 4096, Vec::from_slice(rt.alloc(), &[1])?);
    let out = BytesSink::make(rt.alloc(), 4096, 100, Vec::new(rt.alloc()))?;
    let ran = run_between(&rt, &["0", "0"], source, out)?;
    let usage = Outcome::Refused(Refusal::Usage);
    assert!(rt; ran.ended(usage, b"", b"refused: usage\n"));
    Ok(())
}
