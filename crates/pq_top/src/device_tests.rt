ghost use Rattle.std.specs.Prelude.{◌≡◌, IfOk};

use crate::run_popqc;
use crate::tests::{Device, NO_H, TWO_H, WHOLE, expect, expect_bytes, run, run_logging, words_of};
use pq_io::{ByteList, ReadSource, SureSink, SureSource, WriteSink};
use pq_round::OpenGate;
use std::alloc::AllocError;
use std::io;
use std::io::{ErrorKind, Read, Write};
use std::process::Abort;
use std::test::Fail;
use std::thread::Threads;

const BY_HAND: &str = "OPENQASM 2.0;\ninclude \"qelib1.inc\";\nqreg q[3];\ncreg c[3];\n\
    h q[0];\ncx q[0],q[1];\nt q[1];\ntdg q[1];\ncx q[0],q[1];\nh q;\nbarrier q;\nmeasure q -> c;\n";

const BY_HAND_OUT: &str = "OPENQASM 2.0;\ninclude \"qelib1.inc\";\nqreg q[3];\ncreg c[3];\n\
    h q[1];\nh q[2];\nbarrier q[0],q[1],q[2];\n\
    measure q[0] -> c[0];\nmeasure q[1] -> c[1];\nmeasure q[2] -> c[2];\n\
    // gates 8 2\n// rounds 1\n// calls 1\n// first fingers 1\n// phase 0\n";

// A device of which a call moves 16 bytes at most, and one fails.
fn failing_at(call: u64) -> Device
    ensures { result.step ≡ 16 }
{
    Device {
        step: 16,
        fails: Some(call),
    }
}

// One call of the source fails, and those behind it would give more.
fn source_fails(
    rt: &(impl Abort + AllocGlobal + Threads + Sync),
    call: u64,
) -> Result<(), AllocError> {
    let outcome = run(rt, &["opt"], BY_HAND, failing_at(call), WHOLE)?;
    let taken = call.saturating_mul(16);
    let note = format!(in rt.alloc(); "popqc: read fault after {taken} bytes\n")?;
    expect(rt, &outcome, 4, "", note.as_str());
    Ok(())
}

// One call of the sink fails. It holds what was put before.
fn sink_fails(
    rt: &(impl Abort + AllocGlobal + Threads + Sync),
    call: u64,
) -> Result<(), AllocError> {
    let outcome = run(rt, &["opt"], BY_HAND, WHOLE, failing_at(call))?;
    let sent = call.saturating_mul(16);
    let whole = BY_HAND_OUT.as_bytes();
    let front = &whole[..(sent as usize).min(whole.len())];
    let note = format!(in rt.alloc(); "popqc: write fault after {sent} bytes\n")?;
    expect_bytes(rt, &outcome, 5, front, note.as_str());
    Ok(())
}

#[test]
fn a_failing_device_is_answered_at_its_first_failure(rt: HostRuntime) -> Result<(), Fail> {
    // 144 bytes are read in nine calls, and the tenth tells the end
    for call in 0..10 {
        source_fails(&rt, call)?;
    }

    // 230 bytes are written in 15 calls
    for call in 0..15 {
        sink_fails(&rt, call)?;
    }

    // behind the end no call is made
    let outcome = run(&rt, &["opt"], BY_HAND, failing_at(10), failing_at(15))?;
    expect(&rt, &outcome, 0, BY_HAND_OUT, "");
    Ok(())
}

#[test]
fn failing_notes_change_no_status(rt: HostRuntime) -> Result<(), Fail> {
    for (call, note) in [(0, ""), (1, "popqc: usage: ")] {
        let mut log = Vec::new(rt.alloc());
        let words = ["opt", "--omega", "1"];
        let notes = failing_at(call);
        let outcome = run_logging(&rt, &words, TWO_H, WHOLE, WHOLE, notes, &mut log, &OpenGate)?;
        expect(&rt, &outcome, 2, "", note);
    }
    Ok(())
}

// A stream that falters at one of its calls: it fails there, or as a writer takes no byte, where that is asked for. Else it
// gives what is left of a text, at most 16 bytes at once, or takes all.
#[derive(Drop)]
struct Faltering {
    left: &'static [u8],
    calls: u64,
    falters_at: u64,
    takes_nothing: bool,
}

impl Faltering {
    // Whether it falters at this call.
    fn falters(&mut self) -> bool {
        let call = self.calls;
        self.calls = call.saturating_add(1);
        call == self.falters_at
    }
}

impl Read for Faltering {
    fn read(&mut self, into: &mut [u8]) -> io::Result<usize> {
        if self.falters() {
            return Err(io::Error::from(ErrorKind::Interrupted));
        }
        let (mut front, rest) = self.left.split_at(self.left.len().min(into.len()).min(16));
        self.left = rest;
        front.read(into)
    }
}

impl Write for Faltering {
    fn write(&mut self, piece: &[u8]) -> io::Result<usize> {
        if !self.falters() {
            return Ok(piece.len());
        }
        if self.takes_nothing {
            return Ok(0);
        }
        Err(io::Error::from(ErrorKind::Interrupted))
    }

    fn flush(&mut self) -> io::Result<()> {
        Ok(())
    }
}

fn faltering_at(falters_at: u64, takes_nothing: bool) -> Faltering {
    Faltering {
        left: BY_HAND.as_bytes(),
        calls: 0,
        falters_at,
        takes_nothing,
    }
}

// Optimises the text by hand from a stream to a stream. The status, and the faults of the source and of the sink.
fn over_streams(
    rt: &(impl AllocGlobal + Threads + Sync),
    reader: Faltering,
    writer: Faltering,
) -> Result<(u8, u64, u64), AllocError> {
    let alloc = rt.alloc();
    let mut log = Vec::new(alloc);
    let mut notes = Vec::new(alloc);
    let mut source = ReadSource::new(reader);
    let mut sink = WriteSink::new(writer);
    let status = run_popqc(
        rt,
        alloc,
        words_of(alloc, &["opt"])?.as_slice(),
        &mut source,
        &mut sink,
        &mut WriteSink::new(&mut notes),
        &mut log,
        &OpenGate,
    );
    Ok((status, source.faults(), sink.faults()))
}

#[test]
fn a_stream_that_falters_once_is_not_asked_again(rt: HostRuntime) -> Result<(), Fail> {
    for (reader_at, writer_at, takes_nothing, want) in [
        (0, 9, false, (4, 1, 0)),
        (3, 9, false, (4, 1, 0)),
        (9, 9, false, (4, 1, 0)),
        (10, 0, false, (5, 0, 1)),
        (10, 0, true, (5, 0, 1)),
        (10, 1, true, (0, 0, 0)),
    ] {
        let reader = faltering_at(reader_at, false);
        let writer = faltering_at(writer_at, takes_nothing);
        assert!(rt;
            over_streams(&rt, reader, writer)? == want,
            "{reader_at} {writer_at} {takes_nothing}"
        );
    }
    Ok(())
}

// Optimises over devices that never fail, with room for 64 bytes of the output.
fn over_sure_devices(
    rt: &(impl AllocGlobal + Threads + Sync),
    text: &str,
) -> Result<(u8, SureSink), AllocError>
    ensures no_read_fault { IfOk result (λ ended. ¬ (ended.0 ≡ 4)) }
    ensures no_write_fault { IfOk result (λ ended. ¬ (ended.0 ≡ 5)) }
{
    let alloc = rt.alloc();
    let mut log = Vec::new(alloc);
    let words = words_of(alloc, &["opt", "--omega", "2"])?;
    let bytes = ByteList::of(Vec::from_slice(alloc, text.as_bytes())?);
    let mut sink = SureSink::new(alloc, 16, 64)?;
    let mut notes = SureSink::new(alloc, 16, 64)?;
    let status = run_popqc(
        rt,
        alloc,
        words.as_slice(),
        &mut SureSource::new(bytes, 16),
        &mut sink,
        &mut notes,
        &mut log,
        &OpenGate,
    );
    Ok((status, sink))
}

#[test]
fn what_never_fails_ends_with_the_output(rt: HostRuntime) -> Result<(), Fail> {
    let (status, sink) = over_sure_devices(&rt, TWO_H)?;
    assert_eq!(rt; status, 0);
    assert!(rt; NO_H.as_bytes().starts_with(sink.held()));
    assert_eq!(rt; sink.held().len(), 64);
    Ok(())
}
