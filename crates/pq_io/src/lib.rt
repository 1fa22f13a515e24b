//! Where bytes come from and go to: sources and sinks that may fail at any call and count their faults, in memory
//! and over the standard library's readers and writers, and how one is read or written as a whole.
#![tactic(auto)]

mod adapted;
mod filling;
mod laws;
mod memory;
mod stream;
mod sure;
mod whole;

pub use adapted::{ReadSource, WriteSink};
pub use laws::{reading_is_settled, writing_is_settled};
pub use memory::{MemSink, MemSource};
pub use pq_list::{OutOfMemory, PlaceList, RoomList};
pub use stream::{Failed, Sink, Source};
pub use sure::{SureSink, SureSource};
pub use whole::{ReadWhole, WriteFault, read_whole, write_whole};

/// A list of bytes.
pub type ByteList = RoomList<u8>;

#[cfg(test)]
mod tests;
