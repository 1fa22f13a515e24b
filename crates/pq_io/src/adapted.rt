ghost use Rattle.std.specs.Prelude.{◌≡◌, ◌^◌, ◌<◌, ◌≤◌, length, is_ok, if◌then◌else◌, IfOk, OnErr};
ghost use Rattle.std.specs.Io.{ReadsAtMost, WritesAtMost};
ghost use Rattle.std.specs.Io.KnownBytes.{ReadConsumes, WriteAppends};
ghost use Rattle.pq_io.specs.Faults.{Rose, counted};

use crate::stream::{Failed, Sink, Source};
use std::io::{Read, Write};
use std::marker::Model;

/// A source over a reader. It tells what is left where the reader does. Each call of the reader that fails is a
/// fault, an interrupted one too.
#[derive(Drop)]
pub struct ReadSource<R: Read> {
    reader: R,
    faults: u64,
}

impl<R: Read> Model for ReadSource<R> {
    ghost use Rattle.std.specs.Prelude.{◌^◌, ◌<◌};
    ghost use Rattle.pq_io.specs.Adapted.{SourceOverReader};

    ghost Value = { SourceOverReader };

    ghost view = { λ a. record { left = R.remaining a.reader; faults = a.faults } };

    ghost invariant = { λ a. a.faults < 2 ^ 64 };
}

impl<R: Read> ReadSource<R> {
    /// The source over this reader, with no fault so far.
    pub fn new(reader: R) -> ReadSource<R>
        ensures left { result.left ≡ R.remaining reader }
        ensures faults { result.faults ≡ 0 }
    {
        ReadSource { reader, faults: 0 }
    }

    /// How many calls failed. The count stops at 2^64 - 1.
    pub fn faults(&self) -> u64
        ensures { result ≡ self.now.faults }
    {
        self.faults
    }
}

impl<R: Read> Source for ReadSource<R> {
    ghost left = { λ source. source.left };

    ghost faults = { λ source. source.faults };

    fn take(&mut self, into: &mut [u8]) -> Result<usize, Failed>
        requires { 0 < length into.old }
        ensures count { self.new.faults ≡ (if is_ok result then self.old.faults else counted self.old.faults) }
        ensures bound { ReadsAtMost result into.new }
        ensures bytes { ReadConsumes self.old.left self.new.left result into.new }

        ensures rose { OnErr result (Rose self.old.faults self.new.faults) }
        ensures never_falls { self.old.faults ≤ self.new.faults }
        ensures fits { self.new.faults < 2 ^ 64 }
    {
        match self.reader.read(into) {
            Ok(count) => Ok(count),
            Err(_) => {
                self.faults = self.faults.saturating_add(1);
                Err(Failed)
            }
        }
    }
}

/// A sink over a writer. It tells what it holds where the writer does. Each call of the writer that fails is a
/// fault, an interrupted one too, and so is each that takes 0 bytes.
#[derive(Drop)]
pub struct WriteSink<W: Write> {
    writer: W,
    faults: u64,
}

impl<W: Write> Model for WriteSink<W> {
    ghost use Rattle.std.specs.Prelude.{◌^◌, ◌<◌};
    ghost use Rattle.pq_io.specs.Adapted.{SinkOverWriter};

    ghost Value = { SinkOverWriter };

    ghost view = { λ a. record { held = W.contents a.writer; faults = a.faults } };

    ghost invariant = { λ a. a.faults < 2 ^ 64 };
}

impl<W: Write> WriteSink<W> {
    /// The sink over this writer, with no fault so far.
    pub fn new(writer: W) -> WriteSink<W>
        ensures held { result.held ≡ W.contents writer }
        ensures faults { result.faults ≡ 0 }
    {
        WriteSink { writer, faults: 0 }
    }

    /// How many calls failed. The count stops at 2^64 - 1.
    pub fn faults(&self) -> u64
        ensures { result ≡ self.now.faults }
    {
        self.faults
    }
}

impl<W: Write> Sink for WriteSink<W> {
    ghost held = { λ sink. sink.held };

    ghost faults = { λ sink. sink.faults };

    fn put(&mut self, piece: &[u8]) -> Result<usize, Failed>
        requires { 0 < length piece.now }
        ensures count { self.new.faults ≡ (if is_ok result then self.old.faults else counted self.old.faults) }
        ensures some { IfOk result (λ count. 0 < count) }
        ensures bound { WritesAtMost result piece.now }
        ensures bytes { WriteAppends self.old.held self.new.held result piece.now }

        ensures rose { OnErr result (Rose self.old.faults self.new.faults) }
        ensures never_falls { self.old.faults ≤ self.new.faults }
        ensures fits { self.new.faults < 2 ^ 64 }
    {
        match self.writer.write(piece) {
            Ok(count) if count > 0 => Ok(count),
            _ => {
                self.faults = self.faults.saturating_add(1);
                Err(Failed)
            }
        }
    }
}
