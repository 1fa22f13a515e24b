ghost use Rattle.std.specs.Prelude.{◌<◌};

use crate::{
    ByteList, Failed, MemSink, MemSource, PlaceList, ReadSource, ReadWhole, Sink, Source, SureSink,
    SureSource, WriteSink, read_whole, write_whole,
};
use std::alloc::{AllocError, Global};
use std::io;
use std::io::{ErrorKind, Read, Write};
use std::process::Abort;
use std::test::Fail;

// The answer in words.
fn words(alloc: Global, answer: &ReadWhole) -> Result<String, AllocError> {
    match answer {
        ReadWhole::Bytes(bytes) => format!(in alloc; "bytes {:?}", bytes.as_slice()),
        ReadWhole::Failed { taken } => format!(in alloc; "failed after {taken}"),
        ReadWhole::TooLong => format!(in alloc; "too long"),
        ReadWhole::OutOfMemory => format!(in alloc; "out of memory"),
    }
}

fn bytes_of(alloc: Global, bytes: &[u8]) -> Result<ByteList, AllocError> {
    Ok(ByteList::of(Vec::from_slice(alloc, bytes)?))
}

fn places_of(alloc: Global, places: &[u64]) -> Result<PlaceList, AllocError> {
    Ok(PlaceList::of(Vec::from_slice(alloc, places)?))
}

#[test]
fn lists_have_the_room_that_was_asked_for(rt: HostRuntime) -> Result<(), Fail> {
    let mut bytes = ByteList::with_room(rt.alloc(), 2)?;
    assert_eq!(rt; bytes.room(), 2);
    bytes.push_kept(7);
    bytes.push_kept(9);
    assert_eq!(rt; bytes.as_slice(), [7, 9].as_slice());
    let mut places = PlaceList::with_room(rt.alloc(), 2)?;
    assert_eq!(rt; places.room(), 2);
    places.push_kept(1 << 40);
    assert_eq!(rt; places.as_slice(), [1 << 40].as_slice());
    Ok(())
}

struct Reading {
    bytes: &'static [u8],
    step: u32,
    limit: u64,
    fails: &'static [u64],
    first: &'static str,
    faults: u64,
    second: &'static str,
}

static READINGS: [Reading; 7] = [
    Reading {
        bytes: b"12345",
        step: 5,
        limit: 4,
        fails: &[],
        first: "too long",
        faults: 0,
        second: "bytes []",
    },
    Reading {
        bytes: b"1234",
        step: 4,
        limit: 4,
        fails: &[],
        first: "bytes [49, 50, 51, 52]",
        faults: 0,
        second: "bytes []",
    },
    Reading {
        bytes: b"1234567",
        step: 1,
        limit: 4,
        fails: &[],
        first: "too long",
        faults: 0,
        second: "bytes [54, 55]",
    },
    Reading {
        bytes: b"",
        step: 1,
        limit: 0,
        fails: &[],
        first: "bytes []",
        faults: 0,
        second: "bytes []",
    },
    Reading {
        bytes: b"1",
        step: 3,
        limit: 0,
        fails: &[],
        first: "too long",
        faults: 0,
        second: "bytes []",
    },
    Reading {
        bytes: b"123",
        step: 2,
        limit: 4,
        fails: &[0],
        first: "failed after 0",
        faults: 1,
        second: "bytes [49, 50, 51]",
    },
    Reading {
        bytes: b"123",
        step: 2,
        limit: 4,
        fails: &[9, 1],
        first: "failed after 2",
        faults: 1,
        second: "bytes [51]",
    },
];

fn read_twice(rt: &impl Abort, alloc: Global, row: &Reading) -> Result<(), AllocError>
    requires { 0 < row.now.step }
{
    let bytes = bytes_of(alloc, row.bytes)?;
    let fails = places_of(alloc, row.fails)?;
    let mut source = MemSource::new(bytes, row.step, fails);
    let first = words(alloc, &read_whole(alloc, &mut source, row.limit.min(9)))?;
    assert_eq!(rt; first.as_str(), row.first);
    assert_eq!(rt; source.faults(), row.faults);
    let second = words(alloc, &read_whole(alloc, &mut source, row.limit.min(9)))?;
    assert_eq!(rt; second.as_str(), row.second);
    Ok(())
}

#[test]
fn a_source_in_memory_is_read_up_to_its_end_or_the_limit_or_a_fault(
    rt: HostRuntime,
) -> Result<(), Fail> {
    for row in READINGS.iter() {
        assert!(rt; row.step > 0);
        read_twice(&rt, rt.alloc(), row)?;
    }
    Ok(())
}

struct Writing {
    step: u32,
    room: u64,
    fails: &'static [u64],
    answer: &'static str,
    held: &'static [u8],
    faults: u64,
}

static WRITINGS: [Writing; 5] = [
    Writing {
        step: 16,
        room: 9,
        fails: &[],
        answer: "Ok(())",
        held: b"12345",
        faults: 0,
    },
    Writing {
        step: 2,
        room: 5,
        fails: &[],
        answer: "Ok(())",
        held: b"12345",
        faults: 0,
    },
    Writing {
        step: 2,
        room: 9,
        fails: &[1],
        answer: "Err(WriteFault { sent: 2 })",
        held: b"12",
        faults: 1,
    },
    Writing {
        step: 3,
        room: 4,
        fails: &[],
        answer: "Err(WriteFault { sent: 4 })",
        held: b"1234",
        faults: 1,
    },
    Writing {
        step: 1,
        room: 9,
        fails: &[7, 0],
        answer: "Err(WriteFault { sent: 0 })",
        held: b"",
        faults: 1,
    },
];

fn write_once(rt: &impl Abort, alloc: Global, row: &Writing) -> Result<(), AllocError>
    requires { 0 < row.now.step }
{
    let fails = places_of(alloc, row.fails)?;
    let mut sink = MemSink::new(alloc, row.step, row.room, fails)?;
    let answer = write_whole(&mut sink, b"12345");
    let answer = format!(in alloc; "{answer:?}")?;
    assert_eq!(rt; answer.as_str(), row.answer);
    assert_eq!(rt; sink.held(), row.held);
    assert_eq!(rt; sink.faults(), row.faults);
    Ok(())
}

#[test]
fn a_sink_in_memory_holds_the_text_or_what_came_before_the_fault(
    rt: HostRuntime,
) -> Result<(), Fail> {
    for row in WRITINGS.iter() {
        assert!(rt; row.step > 0);
        write_once(&rt, rt.alloc(), row)?;
    }
    Ok(())
}

// A reader of two bytes that is interrupted at its second call, and a writer that takes three bytes of its first
// piece, and then as many of each as it is told, or fails where that is `None`.
#[derive(Drop)]
struct Faltering {
    calls: u32,
    later: Option<usize>,
}

impl Faltering {
    fn is_first_call(&mut self) -> bool {
        self.calls = self.calls.saturating_add(1);
        self.calls == 1
    }
}

impl Read for Faltering {
    fn read(&mut self, into: &mut [u8]) -> io::Result<usize> {
        if self.is_first_call() {
            let mut two = b"ab".as_slice();
            return two.read(into);
        }
        Err(io::Error::from(ErrorKind::Interrupted))
    }
}

impl Write for Faltering {
    fn write(&mut self, piece: &[u8]) -> io::Result<usize> {
        if self.is_first_call() {
            return Ok(piece.len().min(3));
        }
        match self.later {
            Some(count) => Ok(piece.len().min(count)),
            None => Err(io::Error::from(ErrorKind::Interrupted)),
        }
    }

    fn flush(&mut self) -> io::Result<()> {
        Ok(())
    }
}

#[test]
fn a_reader_is_read_to_its_end(rt: HostRuntime) -> Result<(), Fail> {
    let mut source = ReadSource::new(b"12345".as_slice());
    let answer = read_whole(rt.alloc(), &mut source, 5);
    assert_eq!(rt;
        words(rt.alloc(), &answer)?.as_str(),
        "bytes [49, 50, 51, 52, 53]"
    );
    assert_eq!(rt; source.faults(), 0);
    Ok(())
}

#[test]
fn an_interrupted_reader_is_a_fault(rt: HostRuntime) -> Result<(), Fail> {
    let mut source = ReadSource::new(Faltering {
        calls: 0,
        later: None,
    });
    for faults in [1, 2] {
        let answer = read_whole(rt.alloc(), &mut source, 5);
        let wanted = if faults == 1 {
            "failed after 2"
        } else {
            "failed after 0"
        };
        assert_eq!(rt; words(rt.alloc(), &answer)?.as_str(), wanted);
        assert_eq!(rt; source.faults(), faults);
    }
    Ok(())
}

#[test]
fn a_writer_gets_the_whole_text(rt: HostRuntime) -> Result<(), Fail> {
    let mut written = Vec::new(rt.alloc());
    let mut sink = WriteSink::new(&mut written);
    assert_eq!(rt; write_whole(&mut sink, b"12345"), Ok(()));
    assert_eq!(rt; sink.faults(), 0);
    assert_eq!(rt; written.as_slice(), b"12345".as_slice());
    Ok(())
}

fn write_faltering(rt: &impl Abort, later: Option<usize>, sent: u64) {
    let mut sink = WriteSink::new(Faltering { calls: 0, later });
    match write_whole(&mut sink, b"12345") {
        Ok(()) => panic!(rt; "no fault"),
        Err(fault) => assert_eq!(rt; fault.sent, sent),
    }
    assert_eq!(rt; sink.faults(), 1);
}

#[test]
fn a_writer_that_fails_or_takes_no_byte_is_a_fault(rt: HostRuntime) {
    write_faltering(&rt, Some(0), 3);
    write_faltering(&rt, None, 3);
}

#[test]
fn a_call_says_how_many_bytes_it_moved(rt: HostRuntime) -> Result<(), Fail> {
    let bytes = bytes_of(rt.alloc(), b"123")?;
    let fails = places_of(rt.alloc(), &[1])?;
    let mut source = MemSource::new(bytes, 2, fails);
    let mut room = [0; 4];
    assert_eq!(rt; source.take(&mut room), Ok(2));
    assert_eq!(rt; room[0], b'1');
    assert_eq!(rt; room[1], b'2');
    assert_eq!(rt; source.take(&mut room), Err(Failed));
    assert_eq!(rt; source.take(&mut room), Ok(1));
    assert_eq!(rt; source.take(&mut room), Ok(0));
    let fails = places_of(rt.alloc(), &[1])?;
    let mut sink = MemSink::new(rt.alloc(), 2, 3, fails)?;
    assert_eq!(rt; sink.put(b"123"), Ok(2));
    assert_eq!(rt; sink.put(b"3"), Err(Failed));
    assert_eq!(rt; sink.put(b"3"), Ok(1));
    assert_eq!(rt; sink.put(b"4"), Err(Failed));
    assert_eq!(rt; sink.faults(), 2);
    Ok(())
}

#[test]
fn what_never_fails_gives_all_and_keeps_the_first_bytes(rt: HostRuntime) -> Result<(), Fail> {
    let mut source = SureSource::new(bytes_of(rt.alloc(), b"12345")?, 2);
    let answer = read_whole(rt.alloc(), &mut source, 5);
    assert_eq!(rt;
        words(rt.alloc(), &answer)?.as_str(),
        "bytes [49, 50, 51, 52, 53]"
    );
    let sink = SureSink::new(rt.alloc(), 16, 64)?;
    assert!(rt; sink.held().is_empty());
    let mut sink = SureSink::new(rt.alloc(), 2, 3)?;
    assert_eq!(rt; write_whole(&mut sink, b"12345"), Ok(()));
    assert_eq!(rt; sink.held(), b"123".as_slice());
    Ok(())
}
