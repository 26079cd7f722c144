// Sources and sinks, and where they fail.
use sm_base::Failed;
use sm_stream::{
    MemSink, MemSource, ReadFault, Sink, Source, StdSink, StdSource, SureSink, SureSource,
    read_whole, write_whole,
};
use std::io;
use std::io::{Read, Write};
use std::test::Fail;

/// A reader of std that gives two bytes, then fails, then is at its end.
#[derive(Drop)]
struct Faltering {
    calls: u32,
}

impl Read for Faltering {
    fn read(&mut self, into: &mut [u8]) -> io::Result<usize> {
        self.calls = self.calls.saturating_add(1);
        match (self.calls, into) {
            (1, [first, second, ..]) => {
                *first = b'o';
                *second = b'k';
                Ok(2)
            }
            (2, _) => Err(io::ErrorKind::TimedOut.into()),
            _ => Ok(0),
        }
    }
}

/// A writer of std that takes one byte, then fails, then takes nothing.
#[derive(Drop)]
struct Stopping {
    calls: u32,
}

impl Write for Stopping {
    fn write(&mut self, bytes: &[u8]) -> io::Result<usize> {
        self.calls = self.calls.saturating_add(1);
        match self.calls {
            1 => Ok(bytes.len().min(1)),
            2 => Err(io::ErrorKind::BrokenPipe.into()),
            _ => Ok(0),
        }
    }

    fn flush(&mut self) -> io::Result<()> {
        Ok(())
    }
}

/// Reads of a source of `abcde` that gives at most two bytes a call, into a piece of three.
#[test]
fn a_source_fails_at_the_calls_named(rt: HostRuntime) -> Result<(), Fail> {
    let mut source = MemSource::new(rt.alloc(), b"abcde".to_vec(rt.alloc())?, 2);
    source.fail_at(2)?;
    source.fail_at(4)?;
    let mut piece = [0u8; 3];
    let wants = [Ok(2), Err(Failed), Ok(2), Err(Failed), Ok(1), Ok(0)];
    let fronts = [b"ab", b"ab", b"cd", b"cd", b"ed", b"ed"];
    for (want, front) in wants.iter().zip(fronts.iter()) {
        assert_eq!(rt; source.read(&mut piece), *want);
        assert_eq!(rt; &piece[..2], front.as_slice());
    }
    assert_eq!(rt; source.faults(), 2);
    Ok(())
}

/// Writes of `abcdef` to a sink with room for five bytes that takes at most two a call.
#[test]
fn a_sink_fails_at_the_calls_named_and_at_a_full_room(rt: HostRuntime) -> Result<(), Fail> {
    let mut sink = MemSink::new(rt.alloc(), 5, 2)?;
    sink.fail_at(2)?;
    let text = b"abcdef";
    let wants = [Ok(2), Err(Failed), Ok(2), Ok(1), Err(Failed)];
    for want in wants.iter() {
        let done = sink.bytes().len().min(text.len());
        assert_eq!(rt; sink.write(&text[done..]), *want);
    }
    assert_eq!(rt; sink.write(b""), Ok(0));
    assert_eq!(rt; sink.bytes(), b"abcde".as_slice());
    assert_eq!(rt; sink.faults(), 2);
    Ok(())
}

#[test]
fn sure_streams_never_fail(rt: HostRuntime) -> Result<(), Fail> {
    let mut source = SureSource::new(b"abc".to_vec(rt.alloc())?);
    let mut piece = [0u8; 2];
    assert_eq!(rt; source.read(&mut piece), Ok(2));
    assert_eq!(rt; source.read(&mut piece), Ok(1));
    assert_eq!(rt; piece, [b'c', b'b']);
    assert_eq!(rt; source.read(&mut piece), Ok(0));
    assert_eq!(rt; source.faults(), 0);
    let mut sink = SureSink::new();
    assert_eq!(rt; sink.write(b"abc"), Ok(3));
    assert_eq!(rt; sink.write(b"de"), Ok(2));
    assert_eq!(rt; sink.count(), 5);
    assert_eq!(rt; sink.faults(), 0);
    Ok(())
}

#[test]
fn a_reader_of_std_counts_its_failures(rt: HostRuntime) {
    let mut source = StdSource::new(Faltering { calls: 0 });
    let mut piece = [0u8; 4];
    assert_eq!(rt; source.read(&mut piece), Ok(2));
    assert_eq!(rt; source.read(&mut piece), Err(Failed));
    assert_eq!(rt; source.read(&mut piece), Ok(0));
    assert_eq!(rt; &piece[..2], b"ok".as_slice());
    assert_eq!(rt; source.faults(), 1);
}

#[test]
fn a_writer_of_std_counts_its_failures(rt: HostRuntime) {
    let mut sink = StdSink::new(Stopping { calls: 0 });
    assert_eq!(rt; sink.write(b"ok"), Ok(1));
    assert_eq!(rt; sink.write(b"k"), Err(Failed));
    assert_eq!(rt; sink.write(b"k"), Err(Failed), "it took nothing");
    assert_eq!(rt; sink.faults(), 2);
}

/// The call that fails, 0 for none, the limit, and what comes of reading `abcde` in pieces of two.
#[derive(Drop)]
struct Reading {
    failing: u64,
    limit: usize,
    want: Result<(), ReadFault>,
}

#[test]
fn a_source_is_read_to_its_end(rt: HostRuntime) -> Result<(), Fail> {
    let cases = [
        Reading {
            failing: 0,
            limit: 5,
            want: Ok(()),
        },
        Reading {
            failing: 0,
            limit: 4,
            want: Err(ReadFault::TooLong),
        },
        Reading {
            failing: 3,
            limit: 5,
            want: Err(ReadFault::Failed),
        },
        Reading {
            failing: 5,
            limit: 5,
            want: Ok(()),
        },
    ];
    for case in cases.iter() {
        let mut source = MemSource::new(rt.alloc(), b"abcde".to_vec(rt.alloc())?, 2);
        source.fail_at(case.failing)?;
        assert!(rt; case.limit < 9);
        match read_whole(rt.alloc(), &mut source, case.limit) {
            Ok(bytes) => {
                assert_eq!(rt; case.want, Ok(()));
                assert_eq!(rt; bytes.as_slice(), b"abcde".as_slice());
            }
            Err(fault) => assert_eq!(rt; case.want, Err(fault)),
        }
    }
    Ok(())
}

/// The call that fails, 0 for none, the room, and what stands after writing `abcde` by two bytes.
#[derive(Drop)]
struct Writing {
    failing: u64,
    room: u64,
    held: &'static str,
}

#[test]
fn a_sink_holds_what_came_before_its_failure(rt: HostRuntime) -> Result<(), Fail> {
    let cases = [
        Writing {
            failing: 0,
            room: 5,
            held: "abcde",
        },
        Writing {
            failing: 2,
            room: 5,
            held: "ab",
        },
        Writing {
            failing: 0,
            room: 3,
            held: "abc",
        },
    ];
    for case in cases.iter() {
        let mut sink = MemSink::new(rt.alloc(), case.room, 2)?;
        sink.fail_at(case.failing)?;
        let done = write_whole(&mut sink, b"abcde");
        assert_eq!(rt; done.is_ok(), case.held.len() == 5);
        assert_eq!(rt; sink.bytes(), case.held.as_bytes());
    }
    Ok(())
}
