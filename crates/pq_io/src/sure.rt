ghost use Rattle.std.specs.Prelude.{◌≡◌, ℕ, ◌+◌, ◌-◌, ◌^◌, ◌<◌, ◌≤◌, min, [], ◌++◌, length, take, drop, Some, None, IfOk, OnErr, vec_len, vec_capacity};
ghost use Rattle.std.specs.Io.{ReadsAtMost, WritesAtMost};
ghost use Rattle.std.specs.Io.KnownBytes.{ReadConsumes, WriteAppends};
ghost use Rattle.pq_io.specs.Faults.{Rose};
ghost use Rattle.pq_io.specs.Sure.{SurelyGives, SurelyPuts};

use crate::memory::copy_front;
use crate::stream::{Failed, Sink, Source};
use crate::{ByteList, OutOfMemory};
use std::alloc::Global;
use std::marker::Model;

/// A source over bytes in memory that never fails.
#[derive(Drop)]
pub struct SureSource {
    bytes: ByteList,
    at: usize,
    step: u32,
}

impl Model for SureSource {
    ghost use Rattle.std.specs.Prelude.{◌≤◌, ◌<◌, length, drop};
    ghost use Rattle.pq_io.specs.Sure.{SureSourceView};

    ghost Value = { SureSourceView };

    ghost view = { λ a. record { left = drop a.at a.bytes.items; step = a.step } };

    ghost invariant = { λ a. (a.at ≤ length a.bytes.items) × (0 < a.step) };
}

impl SureSource {
    /// The source of these bytes. A call gives at most `step` of them.
    pub fn new(bytes: ByteList, step: u32) -> SureSource
        requires { 0 < step }
        ensures left { result.left ≡ bytes.items }
        ensures step { result.step ≡ step }
    {
        SureSource { bytes, at: 0, step }
    }
}

impl Source for SureSource {
    ghost left = { λ source. Some source.left };

    ghost faults = { λ source. 0 };

    fn take(&mut self, into: &mut [u8]) -> Result<usize, Failed>
        requires { 0 < length into.old }
        ensures exact { SurelyGives self.old self.new into.new result }
        ensures bound { ReadsAtMost result into.new }
        ensures bytes { ReadConsumes (Some self.old.left) (Some self.new.left) result into.new }

        ensures rose { OnErr result (Rose 0 0) }
        ensures never_falls { 0 ≤ 0 }
        ensures fits { 0 < 2 ^ 64 }
    {
        let count = copy_front(&self.bytes.as_slice()[self.at..], into, self.step);
        self.at += count;
        Ok(count)
    }
}

/// A sink in memory that never fails. It keeps the first bytes that are put, as many as it has room for, and lets the
/// others go, so as a sink it doesn't tell its content.
#[derive(Drop)]
pub struct SureSink {
    bytes: Vec<u8>,
    room: u64,
    step: u32,
}

impl Model for SureSink {
    ghost use Rattle.std.specs.Prelude.{◌≤◌, ◌<◌, vec_len, vec_capacity};
    ghost use Rattle.pq_io.specs.Sure.{SureSinkView};

    ghost Value = { SureSinkView };

    ghost view = { λ a. record { held = a.bytes.items; room = a.room; step = a.step } };

    ghost invariant = { λ a. (vec_len a.bytes ≤ a.room) × (a.room ≤ vec_capacity a.bytes) × (0 < a.step) };
}

impl SureSink {
    /// An empty sink that keeps the first `room` bytes, for which the room is taken here, once. A call takes at most
    /// `step` bytes.
    pub fn new(alloc: Global, step: u32, room: u64) -> Result<SureSink, OutOfMemory>
        requires { 0 < step }
        ensures held { IfOk result (λ sink. sink.held ≡ []) }
        ensures room { IfOk result (λ sink. sink.room ≡ room) }
        ensures step { IfOk result (λ sink. sink.step ≡ step) }
    {
        let bytes = Vec::with_capacity(alloc, room as usize)?;
        Ok(SureSink { bytes, room, step })
    }

    /// The first bytes that were put, as many as there is room for.
    pub fn held(&self) -> &[u8]
        ensures { result.now ≡ self.now.held }
    {
        self.bytes.as_slice()
    }
}

impl Sink for SureSink {
    ghost held = { λ sink. None };

    ghost faults = { λ sink. 0 };

    fn put(&mut self, piece: &[u8]) -> Result<usize, Failed>
        requires { 0 < length piece.now }
        ensures exact { SurelyPuts self.old self.new piece.now result }
        ensures some { IfOk result (λ count. 0 < count) }
        ensures bound { WritesAtMost result piece.now }
        ensures bytes { WriteAppends None None result piece.now }

        ensures rose { OnErr result (Rose 0 0) }
        ensures never_falls { 0 ≤ 0 }
        ensures fits { 0 < 2 ^ 64 }
    {
        let count = (self.step as usize).min(piece.len());
        let free = self.room - self.bytes.len() as u64;
        keep(&mut self.bytes, &piece[..count], free as usize);
        Ok(count)
    }
}

// Appends the prefix of a piece that has room. It takes no memory.
fn keep(bytes: &mut Vec<u8>, piece: &[u8], free: usize)
    requires { vec_len bytes.old + free ≤ vec_capacity bytes.old }
    ensures kept { bytes.new.items ≡ take (vec_len bytes.old + free) (bytes.old.items ++ piece.now) }
    ensures capacity { vec_capacity bytes.old ≤ vec_capacity bytes.new }
{
    let count = free.min(piece.len());
    bytes.extend_from_slice(&piece[..count]).unwrap();
}
