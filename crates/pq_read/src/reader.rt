ghost use Rattle.std.specs.Prelude.{◌≡◌, ℕ, ◌+◌, ◌^◌, ◌<◌, ◌≤◌, List, [], ◌++◌, IfOk, IfErr, OnOk, length};
ghost use Rattle.pq_text.specs.WellFormed.{WellFormed};
ghost use Rattle.pq_read.specs.Environment.{view};
ghost use Rattle.pq_read.specs.Reads.{Reads, IsRefusedFor};
ghost use Rattle.pq_read.specs.Feeding.{StandsFor};

use crate::begun::{Begun, read_last, read_piece};
use crate::draft::Draft;
use crate::program::{Options, Program};
use crate::refusal::{ReadError, Refusal};
use pq_limits::MAX_INPUT;
use pq_list::OutOfMemory;
use std::alloc::{AllocError, Global};
use std::marker::Model;

// What a reader holds of a text: the program as far as it has been read and the statement that isn't finished, or
// the first fault.
#[derive(Drop)]
enum Progress {
    Reading { draft: Draft, begun: Begun },
    Refused(Refusal),
}

/// A reader that is fed a text in pieces. Of the text it holds at most the statement that isn't finished. Contracts
/// see how it reads and how many bytes were fed, and say by `StandsFor` which text that was.
#[derive(Drop)]
pub struct Reader {
    options: Options,
    fed: u64,
    progress: Progress,
}

impl Model for Reader {
    ghost use Rattle.std.specs.Prelude.{◌≤◌};
    ghost use Rattle.pq_limits.specs.declared.TheConstants.{MAX_INPUT};
    ghost use Rattle.pq_read.specs.Feeding.{ReaderView, standing_of, IsHeld};

    ghost Value = { ReaderView };

    ghost view = { λ r. record { options = r.options; fed = r.fed; standing = standing_of r.progress } };

    ghost invariant = { λ r. (r.fed ≤ MAX_INPUT) × IsHeld r.fed r.progress };
}

impl Reader {
    /// A reader that nothing was fed to. It takes no memory.
    pub fn new(alloc: Global, options: Options) -> Reader
        ensures options { result.options ≡ options }
        ensures fed { result.fed ≡ 0 }
        ensures text { StandsFor result [] }
    {
        Reader {
            options,
            fed: 0,
            progress: Progress::Reading {
                draft: Draft::new(alloc),
                begun: Begun::new(alloc),
            },
        }
    }

    /// The reader of the text that was fed before followed by this piece; together they have at most 67,108,864
    /// bytes. A refused text shows at `finish` alone.
    pub fn feed(self, alloc: Global, piece: &[u8]) -> Result<Reader, OutOfMemory>
        requires { self.fed + length piece.now ≤ MAX_INPUT }
        ensures options { IfOk result (λ r. r.options ≡ self.options) }
        ensures fed { IfOk result (λ r. r.fed ≡ self.fed + length piece.now) }
        ensures text { IfOk result (λ r. (text : List ℕ) → StandsFor self text → StandsFor r (text ++ piece.now)) }
    {
        let Reader {
            options,
            fed,
            progress,
        } = self;
        let progress = match progress {
            Progress::Reading { mut draft, begun } => {
                match read_piece(alloc, &mut draft, begun, piece, options) {
                    Ok(begun) => Progress::Reading { draft, begun },
                    Err(ReadError::Refused(refusal)) => Progress::Refused(refusal),
                    Err(ReadError::OutOfMemory) => return Err(AllocError),
                }
            }
            Progress::Refused(refusal) => Progress::Refused(refusal),
        };
        Ok(Reader {
            options,
            fed: fed + piece.len() as u64,
            progress,
        })
    }

    /// The program that the text stands for which was fed. It is well formed. Where that text isn't accepted, the
    /// answer is its first fault. Want of memory may come at any moment before, and is then the answer.
    pub fn finish(self, alloc: Global) -> Result<Program, ReadError>
        ensures read { IfOk result (λ p. (text : List ℕ) → StandsFor self text → Reads text self.options (view p)) }
        ensures well_formed { IfOk result (λ p. (text : List ℕ) → StandsFor self text → WellFormed (view p)) }
        ensures refused { IfErr result (λ e. (text : List ℕ) → StandsFor self text → IsRefusedFor text self.options e) }
    {
        let Reader {
            options,
            fed: _,
            progress,
        } = self;
        match progress {
            Progress::Reading { draft, begun } => read_last(alloc, draft, begun, options),
            Progress::Refused(refusal) => Err(ReadError::Refused(refusal)),
        }
    }
}

/// Reads a circuit program from a text of at most 67,108,864 bytes: the one that the text stands for,
/// which is well formed. Where the text isn't accepted, the answer is its first fault. Want of memory may
/// come at any moment before, and is then the answer.
pub fn read_text(alloc: Global, text: &[u8], options: Options) -> Result<Program, ReadError>
    requires { length text.now ≤ MAX_INPUT }
    ensures read { IfOk result (λ p. Reads text.now options (view p)) }
    ensures well_formed { IfOk result (λ p. WellFormed (view p)) }
    ensures refused { IfErr result (IsRefusedFor text.now options) }
{
    let reader = Reader::new(alloc, options).feed(alloc, text)?;
    reader.finish(alloc)
}
