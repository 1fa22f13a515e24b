ghost use Rattle.std.specs.Prelude.{◌≡◌, ℕ, ◌+◌, ◌-◌, ◌^◌, ◌<◌, ◌≤◌, min, [], ◌++◌, length, take, drop, Some, IfOk, OnErr};
ghost use Rattle.std.specs.Io.{ReadsAtMost, WritesAtMost};
ghost use Rattle.std.specs.Io.KnownBytes.{ReadConsumes, WriteAppends};
ghost use Rattle.pq_io.specs.Faults.{Rose};
ghost use Rattle.pq_io.specs.Memory.{TakesFrom, PutsInto};

use crate::stream::{Failed, Sink, Source};
use crate::{ByteList, OutOfMemory, PlaceList};
use std::alloc::Global;
use std::marker::Model;

/// A source over bytes in memory, with failing calls where that is asked for.
#[derive(Drop)]
pub struct MemSource {
    bytes: ByteList,
    at: usize,
    step: u32,
    fails: PlaceList,
    calls: u64,
    faults: u64,
}

impl Model for MemSource {
    ghost use Rattle.std.specs.Prelude.{◌≤◌, ◌<◌, length, drop};
    ghost use Rattle.pq_io.specs.Memory.{SourceInMemory};

    ghost Value = { SourceInMemory };

    ghost view = { λ a. record { left = drop a.at a.bytes.items; step = a.step; fails = a.fails.items; calls = a.calls; faults = a.faults } };

    ghost invariant = { λ a. (a.at ≤ length a.bytes.items) × (0 < a.step) };
}

impl MemSource {
    /// The source of these bytes. A call gives at most `step` of them. The calls are numbered from 0, and those
    /// whose numbers stand in `fails` fail. From the number 2^64 - 1 on all calls have this number.
    pub fn new(bytes: ByteList, step: u32, fails: PlaceList) -> MemSource
        requires { 0 < step }
        ensures left { result.left ≡ bytes.items }
        ensures step { result.step ≡ step }
        ensures fails { result.fails ≡ fails.items }
        ensures calls { result.calls ≡ 0 }
        ensures faults { result.faults ≡ 0 }
    {
        MemSource {
            bytes,
            at: 0,
            step,
            fails,
            calls: 0,
            faults: 0,
        }
    }

    /// How many calls failed. The count stops at 2^64 - 1.
    pub fn faults(&self) -> u64
        ensures { result ≡ self.now.faults }
    {
        self.faults
    }
}

impl Source for MemSource {
    ghost left = { λ source. Some source.left };

    ghost faults = { λ source. source.faults };

    fn take(&mut self, into: &mut [u8]) -> Result<usize, Failed>
        requires { 0 < length into.old }
        ensures exact { TakesFrom self.old self.new into.new result }
        ensures bound { ReadsAtMost result into.new }
        ensures bytes { ReadConsumes (Some self.old.left) (Some self.new.left) result into.new }

        ensures rose { OnErr result (Rose self.old.faults self.new.faults) }
        ensures never_falls { self.old.faults ≤ self.new.faults }
        ensures fits { self.new.faults < 2 ^ 64 }
    {
        let number = self.calls;
        self.calls = number.saturating_add(1);
        if self.fails.as_slice().contains(&number) {
            self.faults = self.faults.saturating_add(1);
            return Err(Failed);
        }
        let count = copy_front(&self.bytes.as_slice()[self.at..], into, self.step);
        self.at += count;
        Ok(count)
    }
}

// Copies as many bytes as both have, but at most `step`, and returns how many.
pub(crate) fn copy_front(from: &[u8], into: &mut [u8], step: u32) -> usize
    ensures count { result ≡ min step (min (length into.old) (length from.now)) }
    ensures copied { into.new ≡ take result from.now ++ drop result into.old }
{
    let count = (step as usize).min(into.len().min(from.len()));
    into[..count].copy_from_slice(&from[..count]);
    count
}

/// A sink that keeps bytes in memory, with failing calls where that is asked for.
#[derive(Drop)]
pub struct MemSink {
    bytes: Vec<u8>,
    room: u64,
    step: u32,
    fails: PlaceList,
    calls: u64,
    faults: u64,
}

impl Model for MemSink {
    ghost use Rattle.std.specs.Prelude.{◌≤◌, ◌<◌, vec_len, vec_capacity};
    ghost use Rattle.pq_io.specs.Memory.{SinkInMemory};

    ghost Value = { SinkInMemory };

    ghost view = { λ a. record { held = a.bytes.items; room = a.room; step = a.step; fails = a.fails.items; calls = a.calls; faults = a.faults } };

    ghost invariant = { λ a. (vec_len a.bytes ≤ a.room) × (a.room ≤ vec_capacity a.bytes) × (0 < a.step) };
}

impl MemSink {
    /// An empty sink with room for `room` bytes, which is taken here, once. A call takes at most `step` bytes. The
    /// calls are numbered from 0, and those whose numbers stand in `fails` fail, as do all without free room. From
    /// the number 2^64 - 1 on all calls have this number.
    pub fn new(
        alloc: Global,
        step: u32,
        room: u64,
        fails: PlaceList,
    ) -> Result<MemSink, OutOfMemory>
        requires { 0 < step }
        ensures held { IfOk result (λ sink. sink.held ≡ []) }
        ensures room { IfOk result (λ sink. sink.room ≡ room) }
        ensures step { IfOk result (λ sink. sink.step ≡ step) }
        ensures fails { IfOk result (λ sink. sink.fails ≡ fails.items) }
        ensures calls { IfOk result (λ sink. sink.calls ≡ 0) }
        ensures faults { IfOk result (λ sink. sink.faults ≡ 0) }
    {
        let bytes = Vec::with_capacity(alloc, room as usize)?;
        Ok(MemSink {
            bytes,
            room,
            step,
            fails,
            calls: 0,
            faults: 0,
        })
    }

    /// The bytes that were put.
    pub fn held(&self) -> &[u8]
        ensures { result.now ≡ self.now.held }
    {
        self.bytes.as_slice()
    }

    /// How many calls failed. The count stops at 2^64 - 1.
    pub fn faults(&self) -> u64
        ensures { result ≡ self.now.faults }
    {
        self.faults
    }
}

impl Sink for MemSink {
    ghost held = { λ sink. Some sink.held };

    ghost faults = { λ sink. sink.faults };

    fn put(&mut self, piece: &[u8]) -> Result<usize, Failed>
        requires { 0 < length piece.now }
        ensures exact { PutsInto self.old self.new piece.now result }
        ensures some { IfOk result (λ count. 0 < count) }
        ensures bound { WritesAtMost result piece.now }
        ensures bytes { WriteAppends (Some self.old.held) (Some self.new.held) result piece.now }

        ensures rose { OnErr result (Rose self.old.faults self.new.faults) }
        ensures never_falls { self.old.faults ≤ self.new.faults }
        ensures fits { self.new.faults < 2 ^ 64 }
    {
        let number = self.calls;
        self.calls = number.saturating_add(1);
        let free = self.room - self.bytes.len() as u64;
        if free == 0 || self.fails.as_slice().contains(&number) {
            self.faults = self.faults.saturating_add(1);
            return Err(Failed);
        }
        let count = (self.step as usize).min(piece.len().min(free as usize));
        self.bytes.extend_from_slice(&piece[..count]).unwrap();
        Ok(count)
    }
}
