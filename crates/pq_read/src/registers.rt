ghost use Rattle.std.specs.Prelude.{◌≡◌, ◌+◌, ◌<◌, ◌≤◌, ◌↔◌, ◌∷◌, [], ◌++◌, length, None, Some, OnOk, IfOk, IfSome, IsTrue, bytes_eq, map, All};
ghost use Rattle.pq_lex.specs.Token.{seen};
ghost use Rattle.pq_text.specs.Program.{places_of};
ghost use Rattle.pq_read.specs.Environment.{span_from};
ghost use Rattle.pq_read.specs.Arguments.{register_of};
ghost use Rattle.pq_read.specs.Registers.{IsSpan, IsNew};
ghost use Rattle.pq_read.specs.Gives.{Gives};

use crate::argument::Span;
use crate::program::Register;
use crate::refusal::{Kind, ReadError};
use crate::token::refused;
use crate::word::is_text;
use pq_lex::Token;
use pq_limits::MAX_PLACES;
use pq_list::OutOfMemory;
use pq_text::is_lawful_name;
use std::alloc::Global;
use std::collections::BTreeMap;
use std::marker::Model;

/// The registers of one kind in order of declaration. Their places are numbered from 0. Contracts see
/// their names and sizes. Beside the list stands the span of each name.
#[derive(Drop)]
pub struct Registers {
    list: Vec<Register>,
    spans: BTreeMap<String, Span>,
    total: u32,
}

impl Model for Registers {
    ghost use Rattle.std.specs.Prelude.{◌≡◌, ◌≤◌, List, map};
    ghost use Rattle.pq_text.specs.Program.{RegisterView, places_of};

    ghost Value = { List RegisterView };

    ghost use Rattle.pq_read.specs.Environment.{register_view};
    ghost use Rattle.pq_read.specs.Registers.{AreRegisters};
    ghost use Rattle.pq_read.specs.Spans.{AreSpans};

    ghost view = { λ a. map register_view a.list.items };

    ghost invariant = { λ a. AreRegisters a.total (map register_view a.list.items) × AreSpans (map register_view a.list.items) a.spans };
}

impl Registers {
    ghost use Rattle.pq_read.specs.Environment.{register_view};

    /// No registers.
    pub fn new(alloc: Global) -> Registers
        ensures { result ≡ [] }
    {
        Registers {
            list: Vec::new(alloc),
            spans: BTreeMap::new(alloc),
            total: 0,
        }
    }

    /// How many places they have together.
    pub fn total(&self) -> u32
        ensures total { result ≡ places_of self.now }
        ensures within { result ≤ MAX_PLACES }
    {
        self.total
    }

    /// Appends a register, whose name none of them has.
    pub fn push(&mut self, alloc: Global, register: Register) -> Result<(), OutOfMemory>
        requires new { IsNew self.old (register_view register) }
        requires free { span_from 0 self.old (register_view register).name ≡ None }
        ensures { OnOk result (self.new ≡ self.old ++ register_view register ∷ []) }
    {
        let span = Span {
            first: self.total,
            size: register.size,
        };
        let name = String::from_str(alloc, register.name.as_str())?;
        self.list.reserve(1)?;
        self.spans.insert(name, span)?;
        self.list.push_reserved(register);
        self.total += span.size;
        Ok(())
    }

    /// The registers themselves.
    pub fn into_list(self) -> Vec<Register>
        ensures { map register_view result.items ≡ self }
    {
        self.list
    }

    // The span of the first register, where it has this name.
    #[inline(always)]
    fn find_first(&self, name: &[u8]) -> Option<Span>
        ensures { IfSome result (λ span. span_from 0 self.now name.now ≡ Some span) }
    {
        match self.list.first() {
            Some(register) if is_text(register.name.as_str().as_bytes(), name) => Some(Span {
                first: 0,
                size: register.size,
            }),
            _ => None,
        }
    }

    // The span of the register with this name, by the map.
    #[inline(never)]
    fn look_up(&self, name: &[u8]) -> Option<Span>
        ensures { result ≡ span_from 0 self.now name.now }
    {
        match str::from_utf8(name) {
            Ok(text) => self.spans.get(text).copied(),
            Err(_) => None,
        }
    }

    /// The span of the register with this name. The first register is tried before the others, since
    /// most programs have one.
    #[inline(always)]
    pub fn find(&self, name: &[u8]) -> Option<Span>
        ensures value { result ≡ span_from 0 self.now name.now }
        ensures told { IfSome result (λ span. IsSpan span name.now) }
    {
        let _ = &self.total;
        match self.find_first(name) {
            Some(span) => Some(span),
            None => self.look_up(name),
        }
    }

    /// The span of the register that a word names.
    #[inline(always)]
    pub fn named(&self, word: &Token) -> Result<Span, ReadError>
        ensures read { Gives (λ span. span) result (register_of self.now (seen word.now)) }
        ensures told { IfOk result (λ span. IsSpan span word.now.bytes.now) }
    {
        if let Some(span) = self.find(word.bytes) {
            return Ok(span);
        }
        if is_lawful_name(word.bytes) {
            Err(refused(Kind::UnknownRegister, word))
        } else {
            Err(refused(Kind::Syntax, word))
        }
    }
}
