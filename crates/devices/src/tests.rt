// Devices in memory, faults, and the real devices over memory.
use crate::{
    BytesSink, BytesSource, Failed, Input, ReadFault, RealSink, RealSource, Sink, Source, put_all,
    read_all,
};
use std::io;
use std::io::{ErrorKind, Write};
use std::test::Fail;

#[test]
fn a_source_gives_pieces_up_to_its_end(rt: HostRuntime) -> Result<(), Fail> {
    let bytes = Vec::from_slice(rt.alloc(), b"layer")?;
    let mut source = BytesSource::make(bytes, 3, Vec::new(rt.alloc()));
    let mut buf = [0; 4];
    assert_eq!(rt; source.next(&mut buf), Ok(3));
    assert_eq!(rt; buf, *b"lay\0");
    assert_eq!(rt; source.next(&mut buf), Ok(2));
    assert_eq!(rt; buf, *b"ery\0");
    assert_eq!(rt; source.next(&mut buf), Ok(0));
    Ok(())
}

#[test]
fn a_source_that_fails_at_its_first_call_gives_its_bytes_at_the_second(
    rt: HostRuntime,
) -> Result<(), Fail> {
    let bytes = Vec::from_slice(rt.alloc(), b"x,y,z")?;
    let mut source = BytesSource::make(bytes, 10, Vec::from_slice(rt.alloc(), &[1])?);
    let mut buf = [0; 5];
    assert_eq!(rt; source.next(&mut buf), Err(Failed));
    assert_eq!(rt; source.next(&mut buf), Ok(5));
    assert_eq!(rt; buf, *b"x,y,z");
    Ok(())
}

#[test]
fn a_sink_that_fails_at_its_second_call_holds_the_first_piece(rt: HostRuntime) -> Result<(), Fail> {
    let failing = Vec::from_slice(rt.alloc(), &[2])?;
    let mut sink = BytesSink::make(rt.alloc(), 100, 10, failing)?;
    assert_eq!(rt; put_all(&mut sink, b"plane 0 0 1\n"), Err(Failed));
    assert_eq!(rt; sink.held(), b"plane 0 0 ".as_slice());
    Ok(())
}

#[test]
fn a_full_sink_takes_the_empty_piece_alone(rt: HostRuntime) -> Result<(), Fail> {
    let mut sink = BytesSink::make(rt.alloc(), 2, 10, Vec::new(rt.alloc()))?;
    assert_eq!(rt; sink.put(b"abc"), Ok(2));
    assert_eq!(rt; sink.put(b"c"), Err(Failed));
    assert_eq!(rt; sink.put(b""), Ok(0));
    assert_eq!(rt; sink.held(), b"ab".as_slice());
    Ok(())
}

#[test]
fn a_text_longer_than_the_room_leaves_its_front(rt: HostRuntime) -> Result<(), Fail> {
    let mut sink = BytesSink::make(rt.alloc(), 3, 2, Vec::new(rt.alloc()))?;
    assert_eq!(rt; put_all(&mut sink, b"plane"), Err(Failed));
    assert_eq!(rt; sink.held(), b"pla".as_slice());
    Ok(())
}

#[test]
fn a_text_that_fits_is_taken_whole(rt: HostRuntime) -> Result<(), Fail> {
    let mut sink = BytesSink::make(rt.alloc(), 10, 2, Vec::new(rt.alloc()))?;
    assert_eq!(rt; put_all(&mut sink, b"plane"), Ok(()));
    assert_eq!(rt; put_all(&mut sink, b" 001\n"), Ok(()));
    assert_eq!(rt; sink.held(), b"plane 001\n".as_slice());
    Ok(())
}

// What is read of `-x,y`, byte after byte.
fn read_of(
    rt: &HostRuntime,
    failing: &[u64],
    limit: usize,
) -> Result<Result<Input, ReadFault>, Fail> {
    let bytes = Vec::from_slice(rt.alloc(), b"-x,y")?;
    let mut source = BytesSource::make(bytes, 1, Vec::from_slice(rt.alloc(), failing)?);
    Ok(read_all(rt.alloc(), &mut source, limit))
}

#[test]
fn single_bytes_are_read_to_the_end(rt: HostRuntime) -> Result<(), Fail> {
    let whole = Ok(Input::Whole(Vec::from_slice(rt.alloc(), b"-x,y")?));
    assert_eq!(rt; read_of(&rt, &[], 9)?, whole);
    assert_eq!(rt; read_of(&rt, &[], 4)?, whole);
    assert_eq!(rt; read_of(&rt, &[6], 4)?, whole);
    Ok(())
}

#[test]
fn one_byte_beyond_the_limit_is_too_long(rt: HostRuntime) -> Result<(), Fail> {
    assert_eq!(rt; read_of(&rt, &[], 3)?, Ok(Input::TooLong));
    assert_eq!(rt; read_of(&rt, &[5], 3)?, Ok(Input::TooLong));
    assert_eq!(rt; read_of(&rt, &[], 0)?, Ok(Input::TooLong));
    Ok(())
}

#[test]
fn a_source_that_fails_before_its_end_is_told_is_not_read_whole(
    rt: HostRuntime,
) -> Result<(), Fail> {
    assert_eq!(rt; read_of(&rt, &[5], 4)?, Err(ReadFault::Failed));
    assert_eq!(rt; read_of(&rt, &[1], 4)?, Err(ReadFault::Failed));
    Ok(())
}

// What a writer does at its second write.
#[derive(Clone, Copy, PartialEq, Eq, Debug)]
enum Second {
    Fails,
    TakesNothing,
    IsNotFlushed,
}

#[derive(Drop)]
struct Breaking {
    second: Second,
    writes: u8,
}

impl Write for Breaking {
    fn write(&mut self, buf: &[u8]) -> io::Result<usize> {
        self.writes = self.writes.saturating_add(1);
        match self.second {
            Second::Fails if self.writes == 2 => Err(ErrorKind::BrokenPipe.into()),
            Second::TakesNothing if self.writes == 2 => Ok(0),
            _ => Ok(buf.len()),
        }
    }

    fn flush(&mut self) -> io::Result<()> {
        match self.second {
            Second::IsNotFlushed if self.writes == 2 => Err(ErrorKind::BrokenPipe.into()),
            _ => Ok(()),
        }
    }
}

#[test]
fn each_fault_of_a_writer_fails_the_call(rt: HostRuntime) {
    for second in [Second::Fails, Second::TakesNothing, Second::IsNotFlushed] {
        let mut sink = RealSink::make(Breaking { second, writes: 0 });
        assert_eq!(rt; sink.put(b"abc"), Ok(3), "{second:?}");
        assert_eq!(rt; sink.put(b"def"), Err(Failed), "{second:?}");
        assert_eq!(rt; sink.put(b"gh"), Ok(2), "{second:?}");
    }
}

#[test]
fn a_reader_is_read_to_its_end(rt: HostRuntime) -> Result<(), Fail> {
    let mut source = RealSource::make(b"x,y,z\n".as_slice());
    let mut buf = [0; 4];
    assert_eq!(rt; source.next(&mut buf), Ok(4));
    assert_eq!(rt; buf, *b"x,y,");
    assert_eq!(rt; source.next(&mut buf), Ok(2));
    assert_eq!(rt; source.next(&mut buf), Ok(0));
    Ok(())
}
