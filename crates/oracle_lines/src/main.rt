//! What the oracle leaves of segments, under the built-in rows and further ones. Each line of standard input is a `row`,
//! which counts for the segments behind it where it is sound, and else is answered by `refused`; or a `segment`,
//! which is answered by the phase and the gates that are left of it.
#![tactic(auto)]

mod line;

use anyhow::{Context, Result};
use line::{Line, line_of};
use pq_gate::{Eighths, Gate};
use pq_match::Seg;
use pq_oracle::improve;
use pq_rules::{MAX_ROWS, RawRow, Rules, check_row};
use std::alloc::Global;
use std::io::{self, BufRead, BufReader};

fn main(rt: HostRuntime) -> Result<()> {
    let alloc = rt.alloc();
    let mut rules = Rules::builtin(alloc)?;
    for (number, text) in BufReader::new(alloc, rt.reader())?.lines(alloc).enumerate() {
        let line = line_of(alloc, text?.as_str());
        match line.context(format_args!("line {}", number.saturating_add(1)))? {
            Line::Row(row) => rules = with_row(&rt, alloc, rules, row)?,
            Line::Segment(seg) => show_improved(&rt, &rules, seg)?,
        }
    }
    Ok(())
}

// The rules with the row behind them, if it is sound and there is room for it.
fn with_row(rt: &impl Print, alloc: Global, rules: Rules, row: RawRow) -> io::Result<Rules> {
    match check_row(row) {
        Ok(row) if (rules.count() as usize) < MAX_ROWS => {
            let mut rows = Vec::new(alloc);
            rows.push(row)?;
            Ok(rules.with(alloc, rows)?)
        }
        _ => {
            println!(rt; "refused")?;
            Ok(rules)
        }
    }
}

// Writes what the oracle leaves of the segment.
fn show_improved(rt: &impl Print, rules: &Rules, mut seg: Seg) -> io::Result<()> {
    let outcome = improve(rules, &mut seg);
    print!(rt; "{}", outcome.phase)?;
    for gate in seg.gates() {
        show_gate(rt, *gate)?;
    }
    println!(rt)
}

// Writes a gate as a word, with a space before it.
fn show_gate(rt: &impl Print, gate: Gate) -> io::Result<()> {
    match gate {
        Gate::H { wire } => print!(rt; " h{wire}"),
        Gate::X { wire } => print!(rt; " x{wire}"),
        Gate::Phase { eighths, wire } => print!(rt; " {}{wire}", name_of(eighths)),
        Gate::Cx { control, target } => print!(rt; " cx{control}{target}"),
    }
}

// The name of a phase, with which its word begins.
fn name_of(eighths: Eighths) -> &'static str {
    match eighths {
        Eighths::T => "t",
        Eighths::S => "s",
        Eighths::Z => "z",
        Eighths::Sdg => "sdg",
        Eighths::Tdg => "tdg",
    }
}
