ghost use Rattle.std.specs.Prelude.{◌≤◌};
ghost use Rattle.pq_io.specs.Whole.{ReadsWhole, WritesWhole};

use crate::ByteList;
use crate::filling::{Filling, Stop};
use crate::stream::{Sink, Source};
use pq_limits::MAX_INPUT;
use std::alloc::Global;
use thiserror::Error;

/// What reading a source as a whole gave.
#[derive(Drop)]
pub enum ReadWhole {
    /// All that was left, read to its end.
    Bytes(ByteList),
    /// The source failed, after so many bytes.
    Failed { taken: u64 },
    /// The source gave more bytes than the limit. One more than the limit was taken.
    TooLong,
    /// A prefix of what was left was taken.
    OutOfMemory,
}

/// The sink failed, after so many bytes of the text.
#[derive(Clone, Copy, Debug, PartialEq, Eq, Error)]
#[error("the sink failed after {sent} bytes")]
pub struct WriteFault {
    pub sent: u64,
}

/// Reads all that the source has left, at most `limit` bytes. `Failed` comes only where the source's count of faults
/// rose in this call; `taken` bytes were taken before. `TooLong` comes exactly where more than `limit` bytes were
/// given. Of a source that doesn't tell what is left, the statements on the counts hold.
pub fn read_whole<S: Source>(alloc: Global, source: &mut S, limit: u64) -> ReadWhole
    requires { limit ≤ MAX_INPUT }
    ensures answer { ReadsWhole (S.left source.old) (S.left source.new) (S.faults source.old) (S.faults source.new) limit result }
    ensures never_falls { S.faults source.old ≤ S.faults source.new }
{
    let most = limit as usize + 1;
    let mut text = Filling::new(alloc);
    'taking: while text.len() < most {
        match text.take_from(source, most) {
            Ok(0) => return ReadWhole::Bytes(text.finish()),
            Ok(_) => {}
            Err(Stop::Failed) => {
                return ReadWhole::Failed {
                    taken: text.len() as u64,
                };
            }
            Err(Stop::OutOfMemory) => return ReadWhole::OutOfMemory,
        }
    }
    ReadWhole::TooLong
}

/// Puts all of `text` into the sink. A fault comes only where the sink's count of faults rose in this call; the
/// first `sent` bytes were put then, and not all of them. It takes no memory. Of a sink that doesn't tell what it
/// holds, the statements on the counts hold.
pub fn write_whole<K: Sink>(sink: &mut K, text: &[u8]) -> Result<(), WriteFault>
    ensures answer { WritesWhole (K.held sink.old) (K.held sink.new) (K.faults sink.old) (K.faults sink.new) text.now result }
    ensures never_falls { K.faults sink.old ≤ K.faults sink.new }
{
    let mut sent = 0;
    'putting: while sent < text.len() {
        match sink.put(&text[sent..]) {
            Ok(count) => sent += count,
            Err(_) => return Err(WriteFault { sent: sent as u64 }),
        }
    }
    Ok(())
}
