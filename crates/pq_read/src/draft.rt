ghost use Rattle.std.specs.Prelude.{◌≡◌, ◌≤◌, [], OnOk, length};
ghost use Rattle.pq_lex.specs.Lex.{tokens};
ghost use Rattle.pq_lex.specs.Token.{seen};
ghost use Rattle.pq_read.specs.declared.word.FirstWord.TheVariants.{Gate as KnownGate};
ghost use Rattle.pq_read.specs.Environment.{view, start};
ghost use Rattle.pq_read.specs.After.{statement_by, statement_at, piece_at};
ghost use Rattle.pq_read.specs.Drafts.{env_of};
ghost use Rattle.pq_read.specs.Gives.{Gives, left, later};

use crate::declaration::read_declaration;
use crate::gate::read_gate;
use crate::header::{read_header, read_include};
use crate::program::{Options, Program};
use crate::refusal::{Kind, ReadError};
use crate::registers::Registers;
use crate::tail::Tail;
use crate::tail_statement::{read_barrier, read_measure};
use crate::token::{demand_word, refused};
use crate::word::{FirstWord, GateWord, read_first_word};
use pq_gate::{Gate, GateList};
use pq_lex::{Lexer, Token};
use pq_limits::MAX_GATES;
use pq_list::RoomList;
use std::alloc::Global;

/// The program as far as it has been read.
#[derive(Drop)]
pub struct Draft {
    pub header: bool,
    pub included: bool,
    pub quantum: Registers,
    pub classical: Registers,
    pub gates: Vec<Gate>,
    pub tail: Tail,
}

impl Draft {
    /// Nothing has been read.
    pub fn new(alloc: Global) -> Draft
        ensures start { env_of result ≡ start }
        ensures within { length result.gates.items ≤ MAX_GATES }
    {
        Draft {
            header: false,
            included: false,
            quantum: Registers::new(alloc),
            classical: Registers::new(alloc),
            gates: Vec::new(alloc),
            tail: Tail::new(alloc),
        }
    }

    /// The program that has been read.
    pub fn into_program(self) -> Program
        requires { length self.gates.items ≤ MAX_GATES }
        ensures { view result ≡ (env_of self).program }
    {
        let Draft {
            header: _,
            included: _,
            quantum,
            classical,
            gates,
            tail,
        } = self;
        Program {
            qregs: RoomList::of(quantum.into_list()),
            cregs: RoomList::of(classical.into_list()),
            gates: GateList::of(gates),
            tail: RoomList::of(tail.into_items()),
        }
    }

    // A known gate's statement after its word.
    fn gate(
        &mut self,
        lexer: &mut Lexer,
        options: Options,
        token: &Token,
        word: GateWord,
    ) -> Result<(), ReadError>
        requires { length self.old.gates.items ≤ MAX_GATES }
        ensures read { Gives (λ _. (env_of self.new, [])) result
            (statement_by (KnownGate word) options (env_of self.old) (seen token.now) (left lexer.old)) }
        ensures later { OnOk result (tokens lexer.new ≡ later lexer.old) }
        ensures within { OnOk result (length self.new.gates.items ≤ MAX_GATES) }
    {
        self.tail.check_gate(options, token)?;
        read_gate(lexer, word, &self.quantum, &mut self.gates)?;
        self.tail.clear();
        Ok(())
    }

    // A statement after its first word.
    fn statement_by(
        &mut self,
        alloc: Global,
        lexer: &mut Lexer,
        options: Options,
        token: &Token,
        first: FirstWord,
    ) -> Result<(), ReadError>
        requires { length self.old.gates.items ≤ MAX_GATES }
        ensures read { Gives (λ _. (env_of self.new, [])) result
            (statement_by first options (env_of self.old) (seen token.now) (left lexer.old)) }
        ensures later { OnOk result (tokens lexer.new ≡ later lexer.old) }
        ensures within { OnOk result (length self.new.gates.items ≤ MAX_GATES) }
    {
        match first {
            FirstWord::Include => {
                read_include(lexer)?;
                self.included = true;
                Ok(())
            }
            FirstWord::Qreg => {
                let register = read_declaration(
                    alloc,
                    lexer,
                    Kind::TooManyQubits,
                    &self.quantum,
                    &self.classical,
                    &self.quantum,
                )?;
                self.quantum.push(alloc, register)?;
                Ok(())
            }
            FirstWord::Creg => {
                let register = read_declaration(
                    alloc,
                    lexer,
                    Kind::TooManyBits,
                    &self.quantum,
                    &self.classical,
                    &self.classical,
                )?;
                self.classical.push(alloc, register)?;
                Ok(())
            }
            FirstWord::Barrier => {
                read_barrier(alloc, lexer, &self.quantum, &mut self.tail)?;
                Ok(())
            }
            FirstWord::Measure => {
                read_measure(lexer, &self.quantum, &self.classical, &mut self.tail)?;
                Ok(())
            }
            FirstWord::Gate(word) => self.gate(lexer, options, token, word),
            FirstWord::Unsupported => Err(refused(Kind::Unsupported, token)),
            FirstWord::Unknown => Err(refused(Kind::UnknownGate, token)),
        }
    }

    // A statement.
    #[tactic(auto, unfolding(crate::specs::After::statement_at))]
    fn statement(
        &mut self,
        alloc: Global,
        lexer: &mut Lexer,
        options: Options,
    ) -> Result<(), ReadError>
        requires { length self.old.gates.items ≤ MAX_GATES }
        ensures read { Gives (λ _. (env_of self.new, [])) result (statement_at options (env_of self.old) (left lexer.old)) }
        ensures later { OnOk result (tokens lexer.new ≡ later lexer.old) }
        ensures within { OnOk result (length self.new.gates.items ≤ MAX_GATES) }
    {
        let token = demand_word(lexer)?;
        let first = read_first_word(self.included, token.bytes);
        self.statement_by(alloc, lexer, options, &token, first)
    }

    /// The header, which comes first, or a statement.
    #[tactic(auto, unfolding(crate::specs::After::piece_at))]
    pub fn piece(
        &mut self,
        alloc: Global,
        lexer: &mut Lexer,
        options: Options,
    ) -> Result<(), ReadError>
        requires { length self.old.gates.items ≤ MAX_GATES }
        ensures read { Gives (λ _. (env_of self.new, [])) result (piece_at options (env_of self.old) (left lexer.old)) }
        ensures later { OnOk result (tokens lexer.new ≡ later lexer.old) }
        ensures within { OnOk result (length self.new.gates.items ≤ MAX_GATES) }
    {
        if self.header {
            self.statement(alloc, lexer, options)
        } else {
            read_header(lexer)?;
            self.header = true;
            Ok(())
        }
    }
}
