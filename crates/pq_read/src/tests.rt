use crate::{Name, Options, Program, ReadError, Reader, RegList, TailList, read_text};
use pq_gate::{Eighths, Gate};
use pq_limits::MAX_INPUT;
use pq_list::OutOfMemory;
use std::alloc::Global;

// What an answer tells: the number of the kind, the line and the column of a refusal, or 0, the number
// of gates and the number of tail items of a program.
fn told_by(answer: Result<Program, ReadError>) -> Option<(u8, u32, u32)> {
    match answer {
        Ok(program) => Some((
            0,
            (program.gates.as_slice().len() & 0xffff_ffff) as u32,
            (program.tail.as_slice().len() & 0xffff_ffff) as u32,
        )),
        Err(ReadError::Refused(refusal)) => {
            Some((refusal.kind.number(), refusal.line, refusal.column))
        }
        Err(ReadError::OutOfMemory) => None,
    }
}

// The same of a text.
fn told(alloc: Global, text: &[u8], drop_barriers: bool) -> Option<(u8, u32, u32)> {
    if text.len() as u64 > MAX_INPUT {
        return None;
    }
    told_by(read_text(alloc, text, Options { drop_barriers }))
}

// The same of two texts, one after another.
fn told_in_two(
    alloc: Global,
    front: &[u8],
    back: &[u8],
) -> Result<Option<(u8, u32, u32)>, OutOfMemory> {
    if front.len() > 1_000_000 || back.len() > 1_000_000 {
        return Ok(None);
    }
    let options = Options {
        drop_barriers: false,
    };
    let reader = Reader::new(alloc, options)
        .feed(alloc, front)?
        .feed(alloc, back)?;
    Ok(told_by(reader.finish(alloc)))
}

// The same of a text in pieces of so many bytes.
fn told_in_pieces(
    alloc: Global,
    text: &[u8],
    size: usize,
) -> Result<Option<(u8, u32, u32)>, OutOfMemory> {
    if text.len() as u64 > MAX_INPUT {
        return Ok(None);
    }
    let options = Options {
        drop_barriers: false,
    };
    let mut reader = Reader::new(alloc, options);
    let mut fed = 0;
    'pieces: while fed < text.len() {
        let piece = (text.len() - fed).min(size).max(1);
        reader = reader.feed(alloc, &text[fed..fed + piece])?;
        fed += piece;
    }
    Ok(told_by(reader.finish(alloc)))
}

// Whether a text tells this wherever it is cut in two.
fn is_told_at_each_cut(
    alloc: Global,
    text: &[u8],
    want: (u8, u32, u32),
) -> Result<bool, OutOfMemory> {
    let mut agree = true;
    for at in 0..text.len() {
        let (front, back) = text.split_at(at);
        agree = agree && told_in_two(alloc, front, back)? == Some(want);
    }
    Ok(agree)
}

// The same of the two first lines, a line, and another line so many times.
fn told_lines(
    alloc: Global,
    first: &str,
    line: &str,
    count: u32,
) -> Result<Option<(u8, u32, u32)>, OutOfMemory> {
    let mut text = Vec::new(alloc);
    text.extend_from_slice(b"OPENQASM 2.0;\ninclude \"qelib1.inc\";\n")?;
    text.extend_from_slice(first.as_bytes())?;
    for _ in 0..count {
        text.extend_from_slice(line.as_bytes())?;
    }
    Ok(told(alloc, text.as_slice(), false))
}

// The same of the two first lines and some more.
fn told_after(
    alloc: Global,
    lines: &str,
    drop_barriers: bool,
) -> Result<Option<(u8, u32, u32)>, OutOfMemory> {
    let mut text = Vec::new(alloc);
    text.extend_from_slice(b"OPENQASM 2.0;\ninclude \"qelib1.inc\";\n")?;
    text.extend_from_slice(lines.as_bytes())?;
    Ok(told(alloc, text.as_slice(), drop_barriers))
}

#[test]
fn a_text_by_hand_and_its_cuts(rt: HostRuntime) {
    let text =
        "OPENQASM 2.0;\ninclude \"qelib1.inc\";\nqreg q[3];\ncreg c[3];\nh q[0];\ncx q[0],q[1];\nt q[1];\ntdg q[1];\ncx q[0],q[1];\nh q;\nbarrier q;\nmeasure q -> c;\n";
    assert_eq!(rt; told(rt.alloc(), text.as_bytes(), false), Some((0, 8, 4)));
    for (cut, want) in [
        ("", (1, 1, 1)),
        ("OPENQASM 2.", (10, 1, 10)),
        ("OPENQASM 2.0;\ninclude \"qel", (2, 2, 9)),
        (
            "OPENQASM 2.0;\ninclude \"qelib1.inc\";\nqreg q[3];\ncreg c[3];\nh q[0];",
            (0, 1, 0),
        ),
        (
            "OPENQASM 2.0;\ninclude \"qelib1.inc\";\nqreg q[3];\ncreg c[3];\nh q[0];\ncx q[0],q",
            (8, 6, 9),
        ),
        (
            "OPENQASM 2.0;\ninclude \"qelib1.inc\";\nqreg q[3];\ncreg c[3];\nh q[0];\ncx q[0],q[1];\nt q[1];\ntd",
            (4, 8, 1),
        ),
        (
            "OPENQASM 2.0;\ninclude \"qelib1.inc\";\nqreg q[3];\ncreg c[3];\nh q[0];\ncx q[0],q[1];\nt q[1];\ntdg q[1];\ncx q[0],q[1];\nh q;\nbarrier q;\nmeasure q -",
            (3, 12, 11),
        ),
        (
            "OPENQASM 2.0;\ninclude \"qelib1.inc\";\nqreg q[3];\ncreg c[3];\nh q[0];\ncx q[0],q[1];\nt q[1];\ntdg q[1];\ncx q[0],q[1];\nh q;\nbarrier q;\nmeasure q -> c",
            (3, 12, 15),
        ),
    ] {
        assert_eq!(rt; told(rt.alloc(), cut.as_bytes(), false), Some(want));
    }
}

#[test]
fn faults_stand_at_their_tokens(rt: HostRuntime) -> Result<(), OutOfMemory> {
    for (lines, want) in [
        ("qreg q[2];\ncx q[0],q[0];", (8, 4, 9)),
        ("qreg q[2];\nh q[5];", (7, 4, 5)),
        ("qreg q[2];\nrx(0.3) q[0];", (10, 4, 1)),
        ("qreg q[2];\nh r[0];", (5, 4, 3)),
        ("qreg q[2];\nfoo q[0];", (4, 4, 1)),
        ("qreg q[2];\nh q[0]", (3, 4, 7)),
        (
            "qreg q[1];\ncreg c[1];\nmeasure q -> c;\nh q[0];",
            (11, 6, 1),
        ),
        ("qreg q[1];\nh q[0];\nbarrier q;\nh q[0];", (12, 6, 1)),
        ("qreg a[2];\nqreg b[3];\nccx a,b[0],b;", (9, 5, 12)),
        ("qreg q[2];\ncreg q[2];", (6, 4, 6)),
        ("qreg a[2];\nqreg b[3];\ncx a,b;", (9, 5, 6)),
        ("qreg q[4097];", (14, 3, 8)),
        ("creg c[4097];", (16, 3, 8)),
        ("qreg q[0];", (13, 3, 8)),
        ("@", (2, 3, 1)),
        ("qreg q[2];\nh q[18446744073709551616];", (7, 4, 5)),
        ("qreg q[2];\ncx q[0],q@", (8, 4, 9)),
        (
            "qreg aaaaaaaaaaaaaaaaaaaaaaaaaaaaaaaaaaaaaaaaaaaaaaaaaaaaaaaaaaaaaaaaa[1];",
            (18, 3, 6),
        ),
        (
            "qreg aaaaaaaaaaaaaaaaaaaaaaaaaaaaaaaaaaaaaaaaaaaaaaaaaaaaaaaaaaaaaaaa[1];",
            (0, 0, 0),
        ),
        (
            "// \u{1}; any bytes\r\n\tqreg a [ 002 ] ; qreg b[2]; swap a,b;",
            (0, 6, 0),
        ),
        (
            "include \"qelib1.inc\";\nqreg t[1];\nid t;\nCX t[0],t;",
            (8, 6, 9),
        ),
    ] {
        assert_eq!(rt; told_after(rt.alloc(), lines, false)?, Some(want));
    }
    assert_eq!(rt;
        told_after(rt.alloc(), "qreg q[1];\nh q[0];\nbarrier q;\nh q[0];", true)?,
        Some((0, 2, 0))
    );
    assert_eq!(rt;
        told_after(rt.alloc(), "qreg q[1];\nbarrier q;\nid q;", true)?,
        Some((0, 0, 0))
    );
    Ok(())
}

#[test]
fn each_kind_once_more(rt: HostRuntime) {
    for (text, want) in [
        ("openqasm 2.0;", (1, 1, 1)),
        ("OPENQASM 2.0;\nqreg a[1];\nCX a[0] $ a[1];", (2, 3, 9)),
        ("OPENQASM 2.0;\nqreg Q[1];", (3, 2, 6)),
        ("OPENQASM 2.0;\nqreg q[1];\nh q;", (4, 3, 1)),
        (
            "OPENQASM 2.0;\nqreg q[1];\ncreg c[1];\nmeasure c -> q;",
            (5, 4, 9),
        ),
        (
            "OPENQASM 2.0;\nqreg q[1];\nqreg p[1];\nqreg q[1];",
            (6, 4, 6),
        ),
        ("OPENQASM 2.0;\nqreg q[3];\nbarrier q[2],q[3];", (7, 3, 16)),
        ("OPENQASM 2.0;\nqreg q[3];\nCX q[1],q;", (8, 3, 9)),
        (
            "OPENQASM 2.0;\nqreg q[3];\ncreg c[2];\nmeasure q -> c",
            (9, 4, 14),
        ),
        ("OPENQASM 3.0;", (10, 1, 10)),
        (
            "OPENQASM 2.0;\nqreg q[2];\ncreg c[1];\nmeasure q[0]->c[0];CX q[0],q[1];",
            (11, 4, 20),
        ),
        (
            "OPENQASM 2.0;\nqreg q[2];\nbarrier q[0];\n CX q[0],q[1];",
            (12, 4, 2),
        ),
        ("OPENQASM 2.0;\ncreg c[00];", (13, 2, 8)),
        ("OPENQASM 2.0;\nqreg q[4000];\nqreg r[97];", (14, 3, 8)),
        ("OPENQASM 2.0;\ncreg c[4096];\ncreg d[1];", (16, 3, 8)),
        (
            "OPENQASM 2.0;\ncreg bbbbbbbbbbbbbbbbbbbbbbbbbbbbbbbbbbbbbbbbbbbbbbbbbbbbbbbbbbbbbbbbb[1];",
            (18, 2, 6),
        ),
    ] {
        assert_eq!(rt; told(rt.alloc(), text.as_bytes(), false), Some(want));
    }
}

#[test]
fn limits_are_reached(rt: HostRuntime) -> Result<(), OutOfMemory> {
    let alloc = rt.alloc();
    assert_eq!(rt;
        told_lines(alloc, "qreg q[4096];\n", "t q;\n", 256)?,
        Some((0, 1_048_576, 0))
    );
    assert_eq!(rt;
        told_lines(alloc, "qreg q[4096];\n", "t q;\n", 257)?,
        Some((15, 260, 4))
    );
    assert_eq!(rt;
        told_lines(alloc, "qreg q[4096];\n", "barrier q;\n", 256)?,
        Some((0, 0, 256))
    );
    assert_eq!(rt;
        told_lines(alloc, "qreg q[4096];\n", "barrier q;\n", 257)?,
        Some((17, 260, 10))
    );
    assert_eq!(rt;
        told_lines(alloc, "qreg q[4096];\n", "y q;\n", 86)?,
        Some((15, 89, 4))
    );
    assert_eq!(rt;
        told_lines(
            alloc,
            "qreg q[4096];\ncreg c[4096];\n",
            "measure q -> c;\n",
            257
        )?,
        Some((17, 261, 15))
    );
    Ok(())
}

#[test]
fn pieces_read_as_the_whole(rt: HostRuntime) -> Result<(), OutOfMemory> {
    let alloc = rt.alloc();
    let text =
        "OPENQASM 2.0;\ninclude \"qelib1.inc\";\nqreg q[3];\ncreg c[3];\nh q[0];\ncx q[0],q[1];\nt q[1];\ntdg q[1];\ncx q[0],q[1];\nh q;\nbarrier q;\nmeasure q -> c;\n";
    for size in [1, 7, 65_536] {
        assert_eq!(rt;
            told_in_pieces(alloc, text.as_bytes(), size)?,
            Some((0, 8, 4))
        );
    }
    assert_eq!(rt;
        told_in_pieces(
            alloc,
            b"OPENQASM 2.0;\ninclude \"qelib1.inc\";\nqreg q[2];\nh q[0]",
            1
        )?,
        Some((3, 4, 7))
    );
    Ok(())
}

#[test]
fn tokens_may_be_cut(rt: HostRuntime) -> Result<(), OutOfMemory> {
    for (text, want) in [
        (
            "OPENQASM 2.0;include \"qelib1.inc\";// ; \"\nqreg ab[02];creg c[2];cx ab[0] , ab[1];measure ab->c;",
            (0, 1, 2),
        ),
        ("OPENQASM 2.0;\n\r\t // a; /\n// \n//", (0, 0, 0)),
        ("OPENQASM 2.;", (10, 1, 10)),
        ("OPENQASM .25e+1;", (10, 1, 10)),
        ("OPENQASM 2.0e-12 ;", (10, 1, 10)),
        ("OPENQASM 2.0e;", (3, 1, 13)),
        ("OPENQASM 2.0;\nqreg q == ;", (3, 2, 8)),
        ("OPENQASM 2.0;\nqreg q = ;", (2, 2, 8)),
        ("OPENQASM 2.0;\nqreg q -- ;", (3, 2, 8)),
        ("OPENQASM 2.0;\nqreg q /;/", (3, 2, 8)),
        (
            "OPENQASM 2.0;\nqreg q //;\n[ 1 ] ; { } ( ) + * ^",
            (3, 3, 9),
        ),
        ("OPENQASM 2.0;\ninclude \"a;b\" ;", (10, 2, 9)),
        ("OPENQASM 2.0;\ninclude \"a;b\n\" ;", (2, 2, 9)),
        ("OPENQASM 2.0;\nqreg q[1]; @ ; foo", (2, 2, 12)),
    ] {
        assert!(rt; is_told_at_each_cut(rt.alloc(), text.as_bytes(), want)?);
    }
    Ok(())
}

// What some lines and then a text so many times tell, in pieces of 1,000 bytes.
fn told_long(
    alloc: Global,
    lines: &str,
    more: &str,
    count: u32,
    end: &str,
) -> Result<Option<(u8, u32, u32)>, OutOfMemory> {
    let mut text = Vec::new(alloc);
    text.extend_from_slice(b"OPENQASM 2.0;\ninclude \"qelib1.inc\";\nqreg q[2];\n")?;
    text.extend_from_slice(lines.as_bytes())?;
    for _ in 0..count {
        text.extend_from_slice(more.as_bytes())?;
    }
    text.extend_from_slice(end.as_bytes())?;
    told_in_pieces(alloc, text.as_slice(), 1000)
}

#[test]
fn long_statements_are_read_as_short_ones(rt: HostRuntime) -> Result<(), OutOfMemory> {
    for (lines, more, end, want) in [
        ("", "@", "", (2, 4, 1)),
        ("h q[0] ", "@ ", "; h q;", (2, 4, 8)),
        ("", "q ", ";", (4, 4, 1)),
        ("cx q[0],", "[", "", (3, 4, 9)),
        ("cx q[0],q[0] ", "] ", "", (8, 4, 9)),
        ("cx q[0],q[1", " ", "];", (0, 1, 0)),
        ("cx q[0],q[1] // ", "x", "\n;", (0, 1, 0)),
        ("barrier q", ",q", ";", (0, 0, 1)),
        ("barrier q", ",q", ",r;", (5, 4, 10_011)),
        ("barrier q", " q", ";", (3, 4, 11)),
        ("barrier z", ",z", ";", (5, 4, 9)),
        ("barrier q[2]", ",q[0]", ";", (7, 4, 11)),
        ("include \"", "a", "\";", (10, 4, 9)),
    ] {
        assert_eq!(rt; told_long(rt.alloc(), lines, more, 5000, end)?, Some(want));
    }
    Ok(())
}

// Whether a statement over two registers of two stands for these gates.
fn stands_for(alloc: Global, statement: &str, gates: &[Gate]) -> Result<bool, OutOfMemory> {
    let mut text = Vec::new(alloc);
    text.extend_from_slice(b"OPENQASM 2.0;\ninclude \"qelib1.inc\";\nqreg a[2];\nqreg b[2];\n")?;
    text.extend_from_slice(statement.as_bytes())?;
    if text.len() as u64 > MAX_INPUT {
        return Ok(false);
    }
    let options = Options {
        drop_barriers: false,
    };
    match read_text(alloc, text.as_slice(), options) {
        Ok(program) => Ok(program.gates.as_slice() == gates),
        Err(_) => Ok(false),
    }
}

fn phase(eighths: Eighths, wire: u32) -> Gate {
    Gate::Phase { eighths, wire }
}

fn cx(control: u32, target: u32) -> Gate {
    Gate::Cx { control, target }
}

#[test]
fn statements_stand_for_the_gates_of_the_standard(rt: HostRuntime) -> Result<(), OutOfMemory> {
    let alloc = rt.alloc();
    let h = Gate::H { wire: 3 };
    let x = Gate::X { wire: 1 };
    let y = [phase(Eighths::Sdg, 1), x, phase(Eighths::S, 1)];
    assert!(rt; stands_for(alloc, "y a[1];", &y)?);
    assert!(rt; stands_for(alloc, "cz a[0],b[1];", &[h, cx(0, 3), h])?);
    let cy = [phase(Eighths::Sdg, 2), cx(1, 2), phase(Eighths::S, 2)];
    assert!(rt; stands_for(alloc, "cy a[1],b[0];", &cy)?);
    let swap = [cx(0, 2), cx(2, 0), cx(0, 2), cx(1, 3), cx(3, 1), cx(1, 3)];
    assert!(rt; stands_for(alloc, "swap a,b;", &swap)?);
    Ok(())
}

// The declarations of 4,096 registers of one qubit, r0 to r4095.
fn registers_of_one(alloc: Global) -> Result<String, OutOfMemory> {
    let mut text = String::new(alloc);
    for i in 0..4096 {
        let line = format!(in alloc; "qreg r{i}[1];\n")?;
        text.push_str(line.as_str())?;
    }
    Ok(text)
}

#[test]
fn time_grows_with_the_bytes(rt: HostRuntime) -> Result<(), OutOfMemory> {
    let alloc = rt.alloc();
    assert_eq!(rt;
        told_lines(alloc, "qreg q[4096];\nbarrier q", ",q", 100_000)?,
        Some((3, 4, 200_010))
    );
    assert_eq!(rt;
        told_lines(alloc, "qreg q[4096];\n", "id q;\n", 100_000)?,
        Some((0, 0, 0))
    );
    let registers = registers_of_one(alloc)?;
    assert_eq!(rt;
        told_lines(alloc, registers.as_str(), "id r4095[0];\n", 50_000)?,
        Some((0, 0, 0))
    );
    Ok(())
}

#[test]
fn names_and_lists_are_made(rt: HostRuntime) -> Result<(), OutOfMemory> {
    assert!(rt; Name::of(rt.alloc(), "q")?.as_str() == "q");
    let registers = RegList::with_room(rt.alloc(), 2)?;
    assert_eq!(rt; registers.room(), 2);
    assert!(rt; registers.as_slice().is_empty());
    let tail = TailList::with_room(rt.alloc(), 2)?;
    assert_eq!(rt; tail.room(), 2);
    assert!(rt; tail.as_slice().is_empty());
    Ok(())
}
