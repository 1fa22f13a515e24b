ghost use Rattle.std.specs.Prelude.{◌<◌, ◌≤◌};

use crate::feeding::source_program;
use crate::{ArgumentFault, Receipt, generate, refuse_arguments, run_popqc};
use pq_io::{ByteList, MemSink, MemSource, PlaceList};
use pq_read::Options;
use pq_round::{OpenGate, WorkGate};
use pq_write::write_program;
use std::alloc::{AllocError, Global};
use std::process::Abort;
use std::test::Fail;
use std::thread::Threads;

const FRONT: &str = "OPENQASM 2.0;\ninclude \"qelib1.inc\";\nqreg q[4];\n";

pub(crate) const TWO_H: &str =
    "OPENQASM 2.0;\ninclude \"qelib1.inc\";\nqreg q[1];\nh q[0];\nh q[0];\n";

pub(crate) const NO_H: &str = "OPENQASM 2.0;\ninclude \"qelib1.inc\";\nqreg q[1];\n\
    // gates 2 0\n// rounds 1\n// calls 1\n// first fingers 1\n// phase 0\n";

const NO_GATE: &str = "OPENQASM 2.0;\ninclude \"qelib1.inc\";\nqreg q[1];\n";

const NO_GATE_LEFT: &str = "OPENQASM 2.0;\ninclude \"qelib1.inc\";\nqreg q[1];\n\
    // gates 0 0\n// rounds 0\n// calls 0\n// first fingers 0\n// phase 0\n";

const FAR_H: &str = "OPENQASM 2.0;\ninclude \"qelib1.inc\";\nqreg q[4];\n\
    h q[0];\nt q[1];\ns q[1];\nt q[2];\ns q[2];\nt q[3];\ns q[3];\nh q[0];\n";

const BARRIER_INSIDE: &str =
    "OPENQASM 2.0;\ninclude \"qelib1.inc\";\nqreg q[1];\nh q[0];\nbarrier q;\nh q[0];\n";

pub(crate) const EIGHT_GATES: &str = "OPENQASM 2.0;\ninclude \"qelib1.inc\";\nqreg q[4];\n\
    h q[0];\nh q[0];\nt q[1];\ns q[1];\nt q[2];\ns q[2];\nh q[3];\nh q[3];\n";

const FIVE_GATES: &str = "OPENQASM 2.0;\ninclude \"qelib1.inc\";\nqreg q[2];\n\
    cx q[1],q[0];\nsdg q[0];\ncx q[1],q[0];\nsdg q[1];\ns q[1];\n";

// A device: how many bytes a call moves at most, and which call fails.
#[derive(Clone, Copy)]
pub(crate) struct Device {
    pub step: u32,
    pub fails: Option<u64>,
}

pub(crate) const WHOLE: Device = Device {
    step: 1000,
    fails: None,
};

// What a run left behind.
#[derive(Drop)]
pub(crate) struct Outcome {
    pub status: u8,
    pub sink: MemSink,
    notes: MemSink,
}

// The room of the sinks, in which the greatest output has room.
const ROOM: u64 = 12_000_000;

fn list_of(alloc: Global, places: Option<u64>) -> Result<PlaceList, AllocError> {
    let mut list = Vec::new(alloc);
    if let Some(place) = places {
        list.push(place)?;
    }
    Ok(PlaceList::of(list))
}

pub(crate) fn words_of(alloc: Global, words: &[&str]) -> Result<Vec<String>, AllocError> {
    let mut list = Vec::new(alloc);
    for word in words {
        list.push(String::from_str(alloc, word)?)?;
    }
    Ok(list)
}

// Runs the words on the text, with steps and failing calls of the source and the sink, and an empty log.
pub(crate) fn run(
    rt: &(impl AllocGlobal + Threads + Sync),
    words: &[&str],
    text: &str,
    source: Device,
    sink: Device,
) -> Result<Outcome, AllocError>
    requires source { 0 < source.step }
    requires sink { 0 < sink.step }
{
    let mut log = Vec::new(rt.alloc());
    run_logging(rt, words, text, source, sink, WHOLE, &mut log, &OpenGate)
}

// The same with a sink of notes, a log and a gate.
pub(crate) fn run_logging<G: WorkGate>(
    rt: &(impl AllocGlobal + Threads + Sync),
    words: &[&str],
    text: &str,
    source: Device,
    sink: Device,
    notes: Device,
    log: &mut Vec<Receipt>,
    gate: &G,
) -> Result<Outcome, AllocError>
    requires source { 0 < source.step }
    requires sink { 0 < sink.step }
    requires notes { 0 < notes.step }
{
    let alloc = rt.alloc();
    let words = words_of(alloc, words)?;
    let bytes = ByteList::of(Vec::from_slice(alloc, text.as_bytes())?);
    let mut source = MemSource::new(bytes, source.step, list_of(alloc, source.fails)?);
    let mut sink = MemSink::new(alloc, sink.step, ROOM, list_of(alloc, sink.fails)?)?;
    let mut notes = MemSink::new(alloc, notes.step, 1000, list_of(alloc, notes.fails)?)?;
    let status = run_popqc(
        rt,
        alloc,
        words.as_slice(),
        &mut source,
        &mut sink,
        &mut notes,
        log,
        gate,
    );
    Ok(Outcome {
        status,
        sink,
        notes,
    })
}

// Compares what a run left behind.
pub(crate) fn expect(rt: &impl Abort, outcome: &Outcome, status: u8, output: &str, note: &str) {
    expect_bytes(rt, outcome, status, output.as_bytes(), note);
}

// The same with the bytes of the output.
pub(crate) fn expect_bytes(
    rt: &impl Abort,
    outcome: &Outcome,
    status: u8,
    output: &[u8],
    note: &str,
) {
    assert_eq!(rt; outcome.status, status, "{note}");
    assert!(rt; outcome.sink.held() == output, "{note}");
    assert!(rt; outcome.notes.held() == note.as_bytes(), "{note}");
}

fn makes(
    rt: &(impl Abort + AllocGlobal + Threads + Sync),
    words: &[&str],
    text: &str,
    status: u8,
    output: &str,
) -> Result<(), AllocError> {
    let outcome = run(rt, words, text, WHOLE, WHOLE)?;
    expect(rt, &outcome, status, output, "");
    Ok(())
}

// The text of a report: the gates in and out, the rounds, the calls, the first fingers, and the phase.
fn report_of(alloc: Global, numbers: [u8; 6]) -> Result<String, AllocError> {
    let [gates_in, gates_out, rounds, calls, first_fingers, phase] = numbers;
    format!(in alloc;
        "// gates {gates_in} {gates_out}\n// rounds {rounds}\n// calls {calls}\n// first fingers {first_fingers}\n// phase {phase}\n"
    )
}

// Optimises a text of these gates on four wires with this Omega, and compares the gates that are written and the
// numbers of the report.
fn leaves(
    rt: &(impl Abort + AllocGlobal + Threads + Sync),
    omega: &str,
    gates: &str,
    left: &str,
    numbers: [u8; 6],
) -> Result<(), AllocError> {
    let mut text = String::from_str(rt.alloc(), FRONT)?;
    text.push_str(gates)?;
    let mut output = String::from_str(rt.alloc(), FRONT)?;
    output.push_str(left)?;
    output.push_str(report_of(rt.alloc(), numbers)?.as_str())?;
    makes(
        rt,
        &["opt", "--omega", omega],
        text.as_str(),
        0,
        output.as_str(),
    )
}

#[test]
fn a_segment_that_holds_all_gates_is_rewritten_by_the_rules(rt: HostRuntime) -> Result<(), Fail> {
    for (omega, gates, left, numbers) in [
        ("64", "", "", [0, 0, 0, 0, 0, 0]),
        ("2", "h q[0];\nh q[0];\n", "", [2, 0, 1, 1, 1, 0]),
        (
            "4",
            "t q[0];\ncx q[0],q[1];\nt q[0];\n",
            "cx q[0],q[1];\ns q[0];\n",
            [3, 2, 1, 1, 1, 0],
        ),
        (
            "4",
            "t q[1];\ncx q[0],q[1];\nt q[1];\n",
            "t q[1];\ncx q[0],q[1];\nt q[1];\n",
            [3, 3, 1, 1, 1, 0],
        ),
        (
            "4",
            "x q[0];\nt q[0];\nx q[0];\n",
            "tdg q[0];\n",
            [3, 1, 1, 1, 1, 1],
        ),
        (
            "4",
            "h q[0];\ns q[0];\nh q[0];\ns q[0];\n",
            "sdg q[0];\nh q[0];\n",
            [4, 2, 1, 1, 1, 1],
        ),
        (
            "4",
            "t q[0];\ns q[0];\n",
            "t q[0];\ns q[0];\n",
            [2, 2, 1, 1, 1, 0],
        ),
        (
            "4",
            "cx q[0],q[1];\ncx q[1],q[2];\ncx q[0],q[1];\n",
            "cx q[1],q[2];\ncx q[0],q[2];\n",
            [3, 2, 1, 1, 1, 0],
        ),
        (
            "8",
            "h q[0];\nh q[1];\ncx q[0],q[1];\nh q[1];\nh q[0];\n",
            "cx q[1],q[0];\n",
            [5, 1, 1, 1, 1, 0],
        ),
    ] {
        leaves(&rt, omega, gates, left, numbers)?;
    }
    Ok(())
}

#[test]
fn a_statement_of_several_gates_has_each_of_them(rt: HostRuntime) -> Result<(), Fail> {
    for (omega, gates, left, numbers) in [
        (
            "16",
            "ccx q[0],q[1],q[2];\n",
            "h q[2];\ncx q[1],q[2];\ntdg q[2];\ncx q[0],q[2];\nt q[2];\n\
            cx q[1],q[2];\ntdg q[2];\ncx q[0],q[2];\nt q[1];\nt q[2];\nh q[2];\ncx q[0],q[1];\n\
            t q[0];\ntdg q[1];\ncx q[0],q[1];\n",
            [15, 15, 1, 1, 1, 0],
        ),
        (
            "4",
            "swap q[0],q[1];\n",
            "cx q[0],q[1];\ncx q[1],q[0];\ncx q[0],q[1];\n",
            [3, 3, 1, 1, 1, 0],
        ),
    ] {
        leaves(&rt, omega, gates, left, numbers)?;
    }
    Ok(())
}

#[test]
fn what_a_finger_sees_depends_on_omega(rt: HostRuntime) -> Result<(), Fail> {
    for (omega, gates, left, numbers) in [
        (
            "2",
            "h q[0];\nt q[1];\ns q[1];\nh q[0];\n",
            "t q[1];\ns q[1];\n",
            [4, 2, 2, 2, 2, 0],
        ),
        (
            "2",
            "h q[0];\nt q[1];\ns q[1];\nt q[2];\ns q[2];\nt q[3];\ns q[3];\nh q[0];\n",
            "h q[0];\nt q[1];\ns q[1];\nt q[2];\ns q[2];\nt q[3];\ns q[3];\nh q[0];\n",
            [8, 8, 2, 4, 4, 0],
        ),
        (
            "4",
            "h q[0];\nt q[1];\ns q[1];\nt q[2];\ns q[2];\nt q[3];\ns q[3];\nh q[0];\n",
            "t q[1];\ns q[1];\nt q[2];\ns q[2];\nt q[3];\ns q[3];\n",
            [8, 6, 2, 2, 2, 0],
        ),
    ] {
        leaves(&rt, omega, gates, left, numbers)?;
    }
    Ok(())
}

#[test]
fn rounds_go_on_where_gates_went_away(rt: HostRuntime) -> Result<(), Fail> {
    for (omega, gates, left, numbers) in [
        (
            "2",
            "h q[0];\nh q[0];\nh q[0];\nh q[0];\nh q[0];\nh q[0];\n",
            "",
            [6, 0, 2, 3, 3, 0],
        ),
        (
            "2",
            "h q[0];\nh q[0];\nt q[1];\ns q[1];\nt q[2];\ns q[2];\nh q[3];\nh q[3];\n",
            "t q[1];\ns q[1];\nt q[2];\ns q[2];\n",
            [8, 4, 3, 5, 4, 0],
        ),
    ] {
        leaves(&rt, omega, gates, left, numbers)?;
    }
    Ok(())
}

// Optimises the text with Omega 2, which adds receipts to the log. These are wanted in it: jobs, claimed, opened, closed.
fn logs(
    rt: &(impl Abort + AllocGlobal + Threads + Sync),
    log: &mut Vec<Receipt>,
    text: &str,
    want: &[[u64; 4]],
) -> Result<(), AllocError> {
    let outcome = run_logging(
        rt,
        &["opt", "--omega", "2"],
        text,
        WHOLE,
        WHOLE,
        WHOLE,
        log,
        &OpenGate,
    )?;
    assert_eq!(rt; outcome.status, 0);
    assert_eq!(rt; log.len(), want.len());
    for (receipt, numbers) in log.iter().zip(want) {
        assert_eq!(rt; receipt.jobs(), numbers[0]);
        assert_eq!(rt; receipt.claimed(), numbers[1]);
        assert_eq!(rt; receipt.opened(), numbers[2]);
        assert_eq!(rt; receipt.closed(), numbers[3]);
    }
    Ok(())
}

#[test]
fn each_round_leaves_its_receipt_behind_those_there_were(rt: HostRuntime) -> Result<(), Fail> {
    let mut log = Vec::new(rt.alloc());
    logs(
        &rt,
        &mut log,
        EIGHT_GATES,
        &[[2, 2, 8, 6], [2, 2, 6, 4], [1, 1, 4, 4]],
    )?;
    let mut log = Vec::new(rt.alloc());
    logs(&rt, &mut log, TWO_H, &[[1, 1, 2, 0]])?;
    logs(
        &rt,
        &mut log,
        EIGHT_GATES,
        &[[1, 1, 2, 0], [2, 2, 8, 6], [2, 2, 6, 4], [1, 1, 4, 4]],
    )?;
    Ok(())
}

#[test]
fn a_text_comes_and_goes_in_steps_of_any_size(rt: HostRuntime) -> Result<(), Fail> {
    for step in [1u32, 16, 1000] {
        comes_in_steps(&rt, step.max(1))?;
    }
    Ok(())
}

fn comes_in_steps(
    rt: &(impl Abort + AllocGlobal + Threads + Sync),
    step: u32,
) -> Result<(), AllocError>
    requires { 0 < step }
{
    let device = Device { step, fails: None };
    let outcome = run(rt, &["opt", "--omega", "2"], TWO_H, device, device)?;
    expect(rt, &outcome, 0, NO_H, "");
    Ok(())
}

#[test]
fn a_check_names_the_first_redex_within_omega(rt: HostRuntime) -> Result<(), Fail> {
    for (omega, text, status, line) in [
        ("2", TWO_H, 1, "redex 1 at 0 1\n"),
        ("4", FAR_H, 0, "local\n"),
        ("8", FAR_H, 1, "redex 1 at 0 7\n"),
    ] {
        makes(&rt, &["check", "--omega", omega], text, status, line)?;
    }
    Ok(())
}

#[test]
fn a_generated_program_is_written_or_reported_on(rt: HostRuntime) -> Result<(), Fail> {
    let failing = Device {
        step: 16,
        fails: Some(0),
    };
    let words = ["gen", "--seed", "0", "--qubits", "2", "--gates", "5"];
    let outcome = run(&rt, &words, "", failing, WHOLE)?;
    expect(&rt, &outcome, 0, FIVE_GATES, "");
    let words = ["bench", "--seed", "0", "--qubits", "2", "--gates", "5"];
    let outcome = run(&rt, &words, "", failing, WHOLE)?;
    let report = report_of(rt.alloc(), [5, 3, 1, 1, 1, 0])?;
    expect(&rt, &outcome, 0, report.as_str(), "");
    Ok(())
}

// Optimises a large generated program with so many workers.
fn large(rt: &(impl AllocGlobal + Threads + Sync), workers: &str) -> Result<Outcome, AllocError> {
    let words = [
        "bench",
        "--seed",
        "7",
        "--qubits",
        "16",
        "--gates",
        "20000",
        "--workers",
        workers,
    ];
    run(rt, &words, "", WHOLE, WHOLE)
}

#[test]
fn a_large_generated_program_has_one_report(rt: HostRuntime) -> Result<(), Fail> {
    let first = large(&rt, "1")?;
    assert_eq!(&rt; first.status, 0);
    assert!(&rt; first.sink.held().starts_with(b"// gates 20000 "));
    for workers in ["4", "64"] {
        let other = large(&rt, workers)?;
        assert_eq!(&rt; other.status, 0, "{workers} workers");
        assert!(&rt; other.sink.held() == first.sink.held(), "{workers} workers");
    }
    Ok(())
}

#[test]
fn there_may_be_more_workers_than_jobs(rt: HostRuntime) -> Result<(), Fail> {
    let words = ["opt", "--omega", "2", "--workers", "64"];
    makes(&rt, &words, TWO_H, 0, NO_H)?;
    makes(&rt, &words, NO_GATE, 0, NO_GATE_LEFT)?;
    Ok(())
}

fn refuses_words(
    rt: &(impl Abort + AllocGlobal + Threads + Sync),
    words: &[&str],
    note: &str,
) -> Result<(), AllocError> {
    let outcome = run(rt, words, TWO_H, WHOLE, WHOLE)?;
    expect(rt, &outcome, 2, "", note);
    Ok(())
}

#[test]
fn faulty_words_are_named(rt: HostRuntime) -> Result<(), Fail> {
    refuses_words(&rt, &[], "popqc: usage: words\n")?;
    refuses_words(&rt, &["run"], "popqc: usage: command\n")?;
    refuses_words(
        &rt,
        &["gen", "--omega", "2"],
        "popqc: usage: unwanted omega\n",
    )?;
    refuses_words(
        &rt,
        &["gen", "--seed", "1", "--qubits", "2"],
        "popqc: usage: missing gates\n",
    )?;
    refuses_words(
        &rt,
        &["opt", "--omega", "x"],
        "popqc: usage: number omega\n",
    )?;
    refuses_words(&rt, &["opt", "--omega", "1"], "popqc: usage: range omega\n")?;
    Ok(())
}

fn refuses(
    rt: &(impl Abort + AllocGlobal + Threads + Sync),
    text: &str,
    note: &str,
) -> Result<(), AllocError> {
    let outcome = run(rt, &["opt", "--omega", "2"], text, WHOLE, WHOLE)?;
    expect(rt, &outcome, 3, "", note);
    Ok(())
}

fn refuses_line(
    rt: &(impl Abort + AllocGlobal + Threads + Sync),
    line: &str,
    note: &str,
) -> Result<(), AllocError> {
    let mut text = String::from_str(
        rt.alloc(),
        "OPENQASM 2.0;\ninclude \"qelib1.inc\";\nqreg q[2];\n",
    )?;
    text.push_str(line)?;
    refuses(rt, text.as_str(), note)
}

#[test]
fn refusals_have_their_number_their_name_and_their_place(rt: HostRuntime) -> Result<(), Fail> {
    for (line, note) in [
        ("cx q[0],q[0];\n", "popqc: refused 8 SameQubit at 4:9\n"),
        ("h q[5];\n", "popqc: refused 7 IndexOutOfRange at 4:5\n"),
        ("rx(0.3) q[0];\n", "popqc: refused 10 Unsupported at 4:1\n"),
        ("h r[0];\n", "popqc: refused 5 UnknownRegister at 4:3\n"),
        ("foo q[0];\n", "popqc: refused 4 UnknownGate at 4:1\n"),
        ("h q[0]", "popqc: refused 3 Syntax at 4:7\n"),
        (
            "creg c[2];\nmeasure q -> c;\nh q[0];\n",
            "popqc: refused 11 GateAfterMeasure at 6:1\n",
        ),
        (
            "h q[0];\nbarrier q;\nh q[0];\n",
            "popqc: refused 12 BarrierInside at 6:1\n",
        ),
    ] {
        refuses_line(&rt, line, note)?;
    }
    refuses(&rt, "", "popqc: refused 1 NoHeader at 1:1\n")?;
    Ok(())
}

#[test]
fn barriers_inside_are_dropped_where_they_are_to_be(rt: HostRuntime) -> Result<(), Fail> {
    makes(
        &rt,
        &["opt", "--drop-barriers", "--omega", "2"],
        BARRIER_INSIDE,
        0,
        NO_H,
    )?;
    Ok(())
}

// Whether the text of so many generated gates, which the source gives in steps, is read as the gates that were written.
fn are_read_back(alloc: Global, gates: u32, step: u32) -> Result<bool, AllocError>
    requires gates { gates ≤ 20000 }
    requires step { 0 < step }
{
    let program = generate(alloc, 5, 30, gates)?;
    let text = write_program(alloc, &program)?;
    let mut source = MemSource::new(text, step, list_of(alloc, None)?);
    let options = Options {
        drop_barriers: false,
    };
    match source_program(alloc, &mut source, options) {
        Ok(read) => Ok(read.gates.as_slice() == program.gates.as_slice()),
        Err(_) => Ok(false),
    }
}

#[test]
fn a_long_text_is_read_back(rt: HostRuntime) -> Result<(), Fail> {
    assert!(&rt; are_read_back(rt.alloc(), 20_000, 10_007)?);
    assert!(&rt; are_read_back(rt.alloc(), 20_000, 100_000)?);
    Ok(())
}

#[test]
fn failing_devices_are_counted(rt: HostRuntime) -> Result<(), Fail> {
    let failing = Device {
        step: 16,
        fails: Some(1),
    };
    let outcome = run(&rt, &["opt", "--omega", "2"], TWO_H, WHOLE, failing)?;
    expect(
        &rt,
        &outcome,
        5,
        "OPENQASM 2.0;\nin",
        "popqc: write fault after 16 bytes\n",
    );
    let failing = Device {
        step: 16,
        fails: Some(0),
    };
    let outcome = run(&rt, &["opt", "--omega", "2"], TWO_H, failing, WHOLE)?;
    expect(&rt, &outcome, 4, "", "popqc: read fault after 0 bytes\n");
    let failing = Device {
        step: 1,
        fails: Some(1),
    };
    let outcome = run(&rt, &["check", "--omega", "2"], "@", failing, WHOLE)?;
    expect(&rt, &outcome, 4, "", "popqc: read fault after 1 bytes\n");
    Ok(())
}

#[test]
fn arguments_that_cannot_be_had_are_noted(rt: HostRuntime) -> Result<(), Fail> {
    let mut notes = MemSink::new(rt.alloc(), 1000, 1000, PlaceList::of(Vec::new(rt.alloc())))?;
    assert_eq!(&rt; refuse_arguments(&mut notes, ArgumentFault::NotText), 2);
    assert_eq!(&rt; refuse_arguments(&mut notes, ArgumentFault::OutOfMemory), 6);
    assert!(&rt; notes.held() == b"popqc: usage: words\npopqc: out of memory\n".as_slice());
    Ok(())
}
