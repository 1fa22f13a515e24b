ghost use Rattle.std.specs.Prelude.{◌≡◌, ℕ, ◌+◌, ◌<◌, ◌≤◌, List, [], ◌++◌, Option, length, take, drop, IfOk, OnOk, OnErr, IsErrOf, vec_len};
ghost use Rattle.std.specs.Io.KnownBytes.{Consumes, Keeps, IsAtEnd};
ghost use Rattle.pq_io.specs.Faults.{Rose};

use crate::ByteList;
use crate::stream::{Failed, Source};
use std::alloc::{AllocError, Global};
use std::marker::Model;

// The most bytes that one call of a source is asked for.
const CHUNK: usize = 65_536;

// Why no more bytes came.
#[derive(Clone, Copy)]
pub(crate) enum Stop {
    Failed,
    OutOfMemory,
}

// The bytes that were taken so far. They stand in front of a buffer, so that the next ones are taken into their
// place.
#[derive(Drop)]
pub(crate) struct Filling {
    buffer: Vec<u8>,
    filled: usize,
}

impl Model for Filling {
    ghost use Rattle.std.specs.Prelude.{ℕ, ◌≤◌, List, take, vec_len};

    ghost Value = { List ℕ };

    ghost view = { λ a. take a.filled a.buffer.items };

    ghost invariant = { λ a. a.filled ≤ vec_len a.buffer };
}

impl Filling {
    pub(crate) fn new(alloc: Global) -> Filling
        ensures { result ≡ [] }
    {
        Filling {
            buffer: Vec::new(alloc),
            filled: 0,
        }
    }

    pub(crate) fn len(&self) -> usize
        ensures { result ≡ length self.now }
    {
        self.filled
    }

    // The bytes, where they are: nothing is copied.
    pub(crate) fn finish(self) -> ByteList
        ensures { result.items ≡ self }
    {
        let Filling { mut buffer, filled } = self;
        buffer.truncate(filled);
        ByteList::of(buffer)
    }

    // One call of the source, for no more than `most` bytes in all.
    pub(crate) fn take_from<S: Source>(
        &mut self,
        source: &mut S,
        most: usize,
    ) -> Result<usize, Stop>
        requires { length self.old < most }
        ensures within { length self.new ≤ most }
        ensures count { IfOk result (λ count. length self.new ≡ length self.old + count) }

        // Whatever it was before, what was taken since then is what is here now.
        ensures bytes { (before : Option (List ℕ)) → Consumes before (S.left source.old) self.old → Consumes before (S.left source.new) self.new }
        ensures end { IfOk result (λ count. count ≡ 0 → IsAtEnd (S.left source.new)) }
        ensures err { OnErr result (self.new ≡ self.old) }

        ensures rose { IsErrOf result Stop.Failed → Rose (S.faults source.old) (S.faults source.new) }
        ensures never_falls { S.faults source.old ≤ S.faults source.new }
    {
        let filled = self.filled;
        let end = most.min(filled + CHUNK);
        if make_room(&mut self.buffer, end).is_err() {
            return Err(Stop::OutOfMemory);
        }
        match take_at(source, self.buffer.as_mut_slice(), filled, end) {
            Ok(count) => {
                self.filled = filled + count;
                Ok(count)
            }
            Err(_) => Err(Stop::Failed),
        }
    }
}

// Makes the buffer at least so long. What stands in it stays.
fn make_room(buffer: &mut Vec<u8>, end: usize) -> Result<(), AllocError>
    ensures front { take (vec_len buffer.old) buffer.new.items ≡ buffer.old.items }
    ensures grows { vec_len buffer.old ≤ vec_len buffer.new }
    ensures room { OnOk result (end ≤ vec_len buffer.new) }
{
    if buffer.len() < end {
        buffer.resize(end, 0)?;
    }
    Ok(())
}

// One call of the source, into the buffer from `start` to `end`.
fn take_at<S: Source>(
    source: &mut S,
    buffer: &mut [u8],
    start: usize,
    end: usize,
) -> Result<usize, Failed>
    requires some { start < end }
    requires room { end ≤ length buffer.old }
    ensures front { take start buffer.new ≡ take start buffer.old }
    ensures within { IfOk result (λ count. start + count ≤ end) }
    ensures ok { IfOk result (λ count. Consumes (S.left source.old) (S.left source.new) (take count (drop start buffer.new))) }
    ensures end { IfOk result (λ count. count ≡ 0 → IsAtEnd (S.left source.new)) }
    ensures err { OnErr result (Keeps (S.left source.old) (S.left source.new)) }

    ensures rose { OnErr result (Rose (S.faults source.old) (S.faults source.new)) }
    ensures never_falls { S.faults source.old ≤ S.faults source.new }
{
    source.take(&mut buffer[start..end])
}
