ghost use Rattle.std.specs.Prelude.{◌≡◌, ◌+◌, ◌<◌, ◌≤◌, ℕ, List, length, take, IfOk, IfErr, OnOk, OnErr};
ghost use Rattle.std.specs.Io.KnownBytes.{Consumes, Keeps, IsAtEnd};
ghost use Rattle.pq_io.specs.Faults.{Rose};
ghost use Rattle.pq_top.specs.Device.{moved};
ghost use Rattle.pq_top.specs.Work.{HasProgram, HasFed, FailsToRead};

use crate::answer::{Answer, Refusal};
use pq_io::{Failed, Source};
use pq_limits::MAX_INPUT;
use pq_read::{Options, Program, ReadError, Reader};
use std::alloc::Global;

// The most bytes that the source is asked for at once.
const PIECE: usize = 65_536;

// The next bytes of the source, at most so many, in front of the room.
fn take_piece<S: Source>(source: &mut S, room: &mut [u8], most: usize) -> Result<usize, Failed>
    requires some { 0 < most }
    requires room { most ≤ length room.old }
    ensures within { IfOk result (λ count. count ≤ most) }
    ensures taken { IfOk result (λ count. Consumes (S.left source.old) (S.left source.new) (take count room.new)) }
    ensures end { IfOk result (λ count. count ≡ 0 → IsAtEnd (S.left source.new)) }
    ensures keeps { OnErr result (Keeps (S.left source.old) (S.left source.new)) }

    ensures rose { OnErr result (Rose (S.faults source.old) (S.faults source.new)) }
    ensures never_falls { S.faults source.old ≤ S.faults source.new }
{
    source.take(&mut room[..most])
}

// A reader that was fed all that the source gives, which is taken piece by piece into the room.
fn fed_reader<S: Source>(
    alloc: Global,
    source: &mut S,
    options: Options,
    room: &mut [u8],
) -> Result<Reader, Answer>
    requires { length room.old ≡ PIECE }
    ensures options { IfOk result (λ reader. reader.options ≡ options) }
    ensures fed { IfOk result (HasFed (moved S.left S.faults source.old source.new)) }
    ensures fault { IfErr result (FailsToRead options (moved S.left S.faults source.old source.new)) }
{
    let mut reader = Reader::new(alloc, options);
    let mut taken = 0;
    'feeding: loop {
        let most = PIECE.min((MAX_INPUT - taken) as usize + 1);
        match take_piece(source, room, most) {
            Ok(0) => return Ok(reader),
            Ok(count) => {
                if count as u64 > MAX_INPUT - taken {
                    return Err(Answer::Refused(Refusal::TooLong));
                }
                reader = reader.feed(alloc, &room[..count])?;
                taken += count as u64;
            }
            Err(_) => return Err(Answer::ReadFault { taken }),
        }
    }
}

/// The program of the text that the source gives, which is fed to a reader piece by piece.
pub fn source_program<S: Source>(
    alloc: Global,
    source: &mut S,
    options: Options,
) -> Result<Program, Answer>
    ensures program { IfOk result (HasProgram options (moved S.left S.faults source.old source.new)) }
    ensures fault { IfErr result (FailsToRead options (moved S.left S.faults source.old source.new)) }
{
    let mut room = Vec::new(alloc);
    room.resize(PIECE, 0)?;
    let reader = fed_reader(alloc, source, options, room.as_mut_slice())?;
    match reader.finish(alloc) {
        Ok(program) => Ok(program),
        Err(ReadError::Refused(fault)) => Err(Answer::Refused(Refusal::Text(fault))),
        Err(ReadError::OutOfMemory) => Err(Answer::OutOfMemory),
    }
}
