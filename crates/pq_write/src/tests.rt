ghost use Rattle.std.specs.Prelude.{IfSome};
ghost use Rattle.pq_text.specs.WellFormed.{WellFormed};
ghost use Rattle.pq_read.specs.Environment.{view};

use crate::program::HEADER;
use crate::report::REPORT_ROOM;
use crate::{ReportNumbers, write_program, write_report, write_with_report};
use pq_io::ByteList;
use pq_limits::MAX_INPUT;
use pq_read::{Options, Program, read_text};
use std::alloc::{AllocError, Global};

// The program that a text stands for.
fn read(alloc: Global, text: &[u8]) -> Option<Program>
    ensures { IfSome result (λ p. WellFormed (view p)) }
{
    if text.len() as u64 > MAX_INPUT {
        return None;
    }
    let options = Options {
        drop_barriers: false,
    };
    match read_text(alloc, text, options) {
        Ok(program) => Some(program),
        Err(_) => None,
    }
}

// The canonical text of the program that a text stands for.
fn canonical(alloc: Global, text: &[u8]) -> Option<ByteList> {
    let program = read(alloc, text)?;
    match write_program(alloc, &program) {
        Ok(written) => Some(written),
        Err(_) => None,
    }
}

// Whether a text stands for a program whose canonical text is this.
fn is_written_as(alloc: Global, text: &[u8], want: &[u8]) -> bool {
    match canonical(alloc, text) {
        Some(written) => written.as_slice() == want,
        None => false,
    }
}

// Whether a text stands for a program whose canonical text is written again as it is.
fn is_settled(alloc: Global, text: &[u8]) -> bool {
    match canonical(alloc, text) {
        Some(written) => is_written_as(alloc, written.as_slice(), written.as_slice()),
        None => false,
    }
}

// The same of a text that begins with the two first lines and goes on so.
fn is_settled_after(alloc: Global, lines: &str) -> bool {
    let mut text = Vec::new(alloc);
    if text.extend_from_slice(HEADER).is_err()
        || text.extend_from_slice(lines.as_bytes()).is_err()
    {
        return false;
    }
    is_settled(alloc, text.as_slice())
}

const SPREAD: &str = "OPENQASM 2.0; include \"qelib1.inc\"; qreg q [ 2 ]; creg c[1];
qreg long_Name9[011];creg d[12]; // two of each kind
h q[0]; x long_Name9[0]; t long_Name9[1]; s long_Name9[10]; z q[1];
sdg long_Name9[00];tdg q[0] ; cx long_Name9[9] , q[1];
barrier q,long_Name9[3],q[0]; barrier long_Name9[2], q[1];
measure q[1]->d[11]; measure long_Name9[10] -> c;";

const WRITTEN: &[u8] = b"OPENQASM 2.0;
include \"qelib1.inc\";
qreg q[2];
qreg long_Name9[11];
creg c[1];
creg d[12];
h q[0];
x long_Name9[0];
t long_Name9[1];
s long_Name9[10];
z q[1];
sdg long_Name9[0];
tdg q[0];
cx long_Name9[9],q[1];
barrier q[0],q[1],long_Name9[3];
barrier long_Name9[2],q[1];
measure q[1] -> d[11];
measure long_Name9[10] -> c[0];
";

#[test]
fn each_kind_of_line_is_written_as_by_hand(rt: HostRuntime) {
    assert!(rt; is_written_as(rt.alloc(), SPREAD.as_bytes(), WRITTEN));
}

#[test]
fn a_program_without_registers_has_two_lines(rt: HostRuntime) {
    let text = b"// nothing\nOPENQASM\t2.0;\r\ninclude\"qelib1.inc\";";
    assert!(rt;
        is_written_as(
            rt.alloc(),
            text,
            b"OPENQASM 2.0;\ninclude \"qelib1.inc\";\n"
        )
    );
}

#[test]
fn texts_of_users_are_written_the_same_once_written(rt: HostRuntime) {
    for lines in [
        "",
        "qreg q[3]; // three qubits\nh q; // each of them\n",
        "qreg a[2];\nqreg b[2];\ncx a,b;\ncx a[1],b;\n",
        "qreg q[3];\ncreg c[3];\nccx q[0],q[1],q[2];\nmeasure q -> c;\n",
        "qreg q[2];\r\n\tswap q[0] , q[1] ;\r\n",
        "qreg r[4096];\nx r[4095];\ntdg r[000];\n",
        "creg early[7];\nqreg q_1[1];\nqreg qQ[2];\ncz q_1[0],qQ;\ncy qQ[1],q_1[0];\ny qQ;\n",
        "qreg q[5];\nbarrier q[4],q,q[0];\nbarrier q[1];\n",
        "qreg q[2];\ncreg c[9];\nbarrier q;\nmeasure q[1] -> c[8];\nbarrier q[1],q[0];\n",
        "qreg q[1];s q[0];z q[0];sdg q[0];t q[0];// no line ends here",
    ] {
        assert!(rt; is_settled_after(rt.alloc(), lines), "at {lines:?}");
    }
}

const RUN: ReportNumbers = ReportNumbers {
    gates_in: 1_048_576,
    gates_out: 62_034,
    rounds: 17,
    calls: 90_210,
    first_fingers: 0,
    phase: 7,
};

const RUN_WRITTEN: &[u8] = b"// gates 1048576 62034
// rounds 17
// calls 90210
// first fingers 0
// phase 7
";

const LONGEST: ReportNumbers = ReportNumbers {
    gates_in: u64::MAX,
    gates_out: u64::MAX,
    rounds: u64::MAX,
    calls: u64::MAX,
    first_fingers: u64::MAX,
    phase: 255,
};

#[test]
fn a_report_is_five_lines_within_its_room(rt: HostRuntime) -> Result<(), AllocError> {
    let written = write_report(rt.alloc(), &RUN)?;
    assert!(rt; written.as_slice() == RUN_WRITTEN);
    let longest = write_report(rt.alloc(), &LONGEST)?;
    assert_eq!(rt; longest.as_slice().len() as u64, REPORT_ROOM);
    Ok(())
}

// Whether a text stands for a program that is written with the report like this.
fn is_written_with_report(alloc: Global, text: &[u8], want: &[u8]) -> bool {
    let Some(program) = read(alloc, text) else {
        return false;
    };
    match write_with_report(alloc, &program, &RUN) {
        Ok(written) => written.as_slice() == want,
        Err(_) => false,
    }
}

const WITH_REPORT: &[u8] = b"OPENQASM 2.0;
include \"qelib1.inc\";
qreg q[2];
cx q[1],q[0];
barrier q[0],q[1];
// gates 1048576 62034
// rounds 17
// calls 90210
// first fingers 0
// phase 7
";

#[test]
fn a_report_stands_after_the_program_as_comments(rt: HostRuntime) {
    assert!(rt; is_written_with_report(rt.alloc(), WITH_REPORT, WITH_REPORT));
}
