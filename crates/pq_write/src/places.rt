ghost use Rattle.std.specs.Prelude.{◌≡◌, ℕ, ◌+◌, ◌^◌, ◌<◌, ◌≤◌, [], ◌∷◌, ◌++◌, length, map, All, OnOk, IfOk, vec_len};
ghost use Rattle.pq_text.specs.Program.{places_of};
ghost use Rattle.pq_text.specs.Print.{indexed, place as place_text};
ghost use Rattle.pq_text.specs.WellFormed.{IsRegister};
ghost use Rattle.pq_read.specs.Environment.{register_view};
ghost use Rattle.pq_write.specs.Table.{IsTableOf};

use crate::number::push_number;
use pq_io::OutOfMemory;
use pq_limits::{MAX_NAME, MAX_PLACES};
use pq_read::Register;
use std::alloc::Global;
use std::marker::Model;

// Appends the text `NAME[INDEX]`.
fn push_indexed(out: &mut Vec<u8>, name: &[u8], index: u32) -> Result<(), OutOfMemory>
    ensures { OnOk result (out.new.items ≡ out.old.items ++ indexed name.now index) }
{
    out.extend_from_slice(name)?;
    push_number(out, b"[", u64::from(index))?;
    out.push(b']')?;
    Ok(())
}

// Where a text lies among the bytes.
#[derive(Clone, Copy)]
struct Extent {
    start: u32,
    end: u32,
}

// Texts one after another in one piece of memory.
#[derive(Drop)]
struct Table {
    bytes: Vec<u8>,
    extents: Vec<Extent>,
}

impl Table {
    ghost use Rattle.pq_read.specs.Environment.{register_view};
    ghost use Rattle.pq_write.specs.Table.{IsLaid, texts_of, texts_in};

    // Appends the text `NAME[INDEX]`.
    fn push(&mut self, name: &[u8], index: u32) -> Result<(), OutOfMemory>
        requires room { vec_len self.old.extents < MAX_PLACES }
        requires short { length name.now ≤ MAX_NAME }
        requires laid { IsLaid self.old }
        ensures laid { OnOk result (IsLaid self.new) }
        ensures count { OnOk result (vec_len self.new.extents ≡ vec_len self.old.extents + 1) }
        ensures texts { OnOk result
            (texts_of self.new ≡ texts_of self.old ++ indexed name.now index ∷ []) }
    {
        let start = self.bytes.len() as u32;
        push_indexed(&mut self.bytes, name, index)?;
        let end = self.bytes.len() as u32;
        self.extents.push(Extent { start, end })?;
        Ok(())
    }

    // Appends the texts of the places of a register.
    fn push_register(&mut self, register: &Register) -> Result<(), OutOfMemory>
        requires room { vec_len self.old.extents + register.now.size ≤ MAX_PLACES }
        requires short { length register.now.name ≤ MAX_NAME }
        requires laid { IsLaid self.old }
        ensures laid { OnOk result (IsLaid self.new) }
        ensures count { OnOk result
            (vec_len self.new.extents ≡ vec_len self.old.extents + register.now.size) }
        ensures texts { OnOk result
            (texts_of self.new ≡ texts_of self.old ++ texts_in (register_view register.now)) }
    {
        let name = register.name.as_str().as_bytes();
        for index in 0..register.size {
            self.push(name, index)?;
        }
        Ok(())
    }
}

// The texts of the places of some registers.
fn table_of(alloc: Global, registers: &[Register]) -> Result<Table, OutOfMemory>
    requires each { All IsRegister (map register_view registers.now) }
    requires limit { places_of (map register_view registers.now) ≤ MAX_PLACES }
    ensures { IfOk result (λ table. IsTableOf (map register_view registers.now) table) }
{
    let mut table = Table {
        bytes: Vec::new(alloc),
        extents: Vec::new(alloc),
    };
    for register in registers {
        table.push_register(register)?;
    }
    Ok(table)
}

/// The registers of one kind, with the texts of all their places. Contracts see the registers.
#[derive(Drop)]
pub struct Places<'a> {
    registers: &'a [Register],
    table: Table,
}

impl<'a> Model for Places<'a> {
    ghost use Rattle.std.specs.Prelude.{List, map};
    ghost use Rattle.pq_text.specs.Program.{RegisterView};
    ghost use Rattle.pq_read.specs.Environment.{register_view};
    ghost use Rattle.pq_write.specs.Table.{IsTableOf};

    ghost Value = { List RegisterView };

    ghost view = { λ p. map register_view p.registers.now };

    ghost invariant = { λ p. IsTableOf (map register_view p.registers.now) p.table };
}

impl<'a> Places<'a> {
    /// The registers with the texts of their places.
    pub fn of(alloc: Global, registers: &'a [Register]) -> Result<Places<'a>, OutOfMemory>
        requires each { All IsRegister (map register_view registers.now) }
        requires limit { places_of (map register_view registers.now) ≤ MAX_PLACES }
        ensures { IfOk result (λ places. places ≡ map register_view registers.entry.now) }
    {
        let table = table_of(alloc, registers)?;
        Ok(Places { registers, table })
    }

    /// The text `NAME[INDEX]` of a place, numbered over all the registers.
    #[inline]
    pub fn place(&self, number: usize) -> &[u8]
        requires { number < places_of self.now }
        ensures text { result.now ≡ place_text self.now number }
        ensures short { length result.now < 2 ^ 32 }
    {
        let extent = self.table.extents[number];
        &self.table.bytes[extent.start as usize..extent.end as usize]
    }
}
