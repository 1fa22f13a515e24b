ghost use Rattle.std.specs.Prelude.{◌≡◌, ◌≢◌, ℕ, ◌+◌, ◌<◌, ◌≤◌, ◌++◌, Bool, false, true, [], ◌∷◌, All, cond, length, map, IfOk, IfSome, slice_index_or, vec_len};
ghost use Rattle.std.specs.Option.{option_copied};
ghost use Rattle.pq_gate.specs.Kind.{kind_of, number_of};
ghost use Rattle.pq_rules.specs.Kinds.{begins, numbers_starting, numbers_where, row_numbered};
ghost use Rattle.pq_rules.specs.Lanes.{admits_begin, demands};
ghost use Rattle.pq_rules.specs.Seen.{is_admitting, entry_of};
ghost use Rattle.pq_rules.specs.declared.seen.Seen.{Seen};
ghost use Rattle.pq_rules.specs.Row.{RowView, IsSound};
ghost use Rattle.pq_rules.specs.Shapes.{rule_row};
ghost use Rattle.pq_rules.specs.Table.{builtin_rows};

use crate::demand::{Demands, are_met, demands_on};
use crate::lane::Lane;
use crate::row::{RawRow, Row};
use crate::seen::{SEEN, Seen, is_admitted, seen_numbered};
use crate::sight::{Sight, kind_number};
use crate::table::{BuiltinRule, builtin_rules};
use pq_gate::{Gate, GateList, KINDS};
use pq_limits::MAX_EXTRA_ROWS;
use pq_list::{OutOfMemory, crosses_threads};
use std::alloc::Global;
use std::marker::Model;

/// How many rows are built in.
pub const BUILTIN_ROWS: usize = 52;

/// The most rows: the built-in ones, and as many as may follow them.
pub const MAX_ROWS: usize = BUILTIN_ROWS + MAX_EXTRA_ROWS;

// how many entries there are for each kind and what is seen first
const WIDTH: usize = SEEN as usize;

// how many entries the table has: for each kind, and for each two that are seen
const ENTRIES: usize = KINDS as usize * WIDTH * WIDTH;

/// Sound rows, numbered from 1, with an index by the kind of their first gate. Contracts see the list
/// of the rows.
#[derive(Drop)]
pub struct Rules {
    rows: Vec<Row>,

    // by the number of a kind: the numbers of the rows that start with a gate of it
    starting: Vec<Vec<u32>>,

    // by a kind and what is seen next on its last wire: the numbers of the rows that may have a redex there
    admitting: Vec<Vec<u32>>,

    // by the same, whether there is such a row
    admitted: Vec<bool>,

    // by the place of a row: what its pattern asks of the wires of its first gate
    ahead: Vec<Demands>,
}

impl Model for Rules {
    ghost use Rattle.std.specs.Prelude.{ℕ, List};
    ghost use Rattle.pq_rules.specs.Row.{RowView};

    ghost Value = { List RowView };

    ghost use Rattle.std.specs.Prelude.{◌≡◌, ◌≢◌, ◌<◌, ◌≤◌, Bool, false, true, [], All, map, slice_index_or, vec_len};
    ghost use Rattle.pq_rules.specs.Lanes.{demands};
    ghost use Rattle.pq_gate.specs.declared.kind.TheConstants.{KINDS};
    ghost use Rattle.pq_rules.specs.Kinds.{numbers_starting, numbers_where};
    ghost use Rattle.pq_rules.specs.Seen.{is_admitting, entry_of};
    ghost use Rattle.pq_rules.specs.declared.seen.Seen.{Seen};
    ghost use Rattle.pq_rules.specs.declared.rules.TheConstants.{ENTRIES};
    ghost use Rattle.pq_rules.specs.Row.{IsSound};
    ghost use Rattle.pq_rules.specs.declared.rules.TheConstants.{MAX_ROWS};

    ghost view = { λ a. a.rows.items };

    ghost invariant = { λ a. All IsSound a.rows.items × (vec_len a.rows ≤ MAX_ROWS) × (vec_len a.starting ≡ KINDS) ×
        ((k : ℕ) (d : _) → k < KINDS → (slice_index_or a.starting.items k d).items ≡ numbers_starting k 1 a.rows.items) ×
        (vec_len a.admitting ≡ ENTRIES) ×
        ((k : ℕ) (near far : Seen) (d : _) → k < KINDS →
        (slice_index_or a.admitting.items (entry_of k near far) d).items ≡ numbers_where (is_admitting k near far) 1 a.rows.items) ×
        (vec_len a.admitted ≡ ENTRIES) ×
        ((entry : ℕ) (d : _) (e : Bool) → entry < ENTRIES → slice_index_or a.admitted.items entry e ≡ false → (slice_index_or a.admitting.items entry d).items ≡ []) ×
        (a.ahead.items ≡ map demands a.rows.items) ×
        ((entry : ℕ) (d : _) (e : Bool) → entry < ENTRIES → slice_index_or a.admitted.items entry e ≡ true → (slice_index_or a.admitting.items entry d).items ≢ []) };
}

impl Rules {
    /// The 52 built-in rows.
    #[tactic(auto, using(crate::proofs::TableLaws::sound_rules, crate::proofs::TableLaws::count_rules))]
    pub fn builtin(alloc: Global) -> Result<Rules, OutOfMemory>
        ensures rows { IfOk result (λ rules. rules ≡ builtin_rows) }
        ensures count { IfOk result (λ rules. length rules ≡ BUILTIN_ROWS) }
    {
        let rules = builtin_rules();
        let rows = rows_of(alloc, &rules)?;
        Rules::of(alloc, rows)
    }

    /// These rules, and the extra rows behind them.
    pub fn with(self, alloc: Global, extra: Vec<Row>) -> Result<Rules, OutOfMemory>
        requires { length self + vec_len extra ≤ MAX_ROWS }
        ensures { IfOk result (λ rules. rules ≡ self ++ extra.items) }
    {
        let Rules {
            mut rows,
            starting: _,
            admitting: _,
            admitted: _,
            ahead: _,
        } = self;
        let mut extra = extra;
        rows.append(&mut extra)?;
        Rules::of(alloc, rows)
    }

    // the rules with these rows
    fn of(alloc: Global, rows: Vec<Row>) -> Result<Rules, OutOfMemory>
        requires { vec_len rows ≤ MAX_ROWS }
        ensures { IfOk result (λ rules. rules ≡ rows.items) }
    {
        let starting = index_of(alloc, rows.as_slice())?;
        let admitting = table_of(alloc, rows.as_slice())?;
        let admitted = noted(alloc, admitting.as_slice())?;
        let ahead = ahead_of(alloc, rows.as_slice())?;
        rows_are_sound(rows.as_slice());
        Ok(Rules {
            rows,
            starting,
            admitting,
            admitted,
            ahead,
        })
    }

    /// How many rows there are.
    pub fn count(&self) -> u32
        ensures count { result ≡ length self.now }
        ensures sound { All IsSound self.now }
    {
        self.rows.len() as u32
    }

    /// The row with this number, counted from 1. None exactly where there is no such row.
    pub fn row(&self, number: u32) -> Option<&Row>
        ensures row { option_copied result ≡ row_numbered self.now number }
        ensures sound { IfSome result (λ row. IsSound row.now) }
    {
        if number == 0 {
            return None;
        }
        match self.rows.get(number as usize - 1) {
            Some(row) => {
                let _phase = row.phase();
                Some(row)
            }
            None => None,
        }
    }

    /// The numbers, ascending, of the rows whose first gate is of this gate's kind: for a phase, of the
    /// same eighths.
    pub fn rows_starting(&self, gate: Gate) -> &[u32]
        ensures { result.now ≡ numbers_starting (number_of (kind_of gate)) 1 self.now }
    {
        self.starting[gate.kind().number() as usize].as_slice()
    }
}

impl Rules {
    /// The numbers, ascending, of the rows whose first gate is of this gate's kind, and which may have a redex there where
    /// these two are seen next on the gate's last wire.
    pub fn rows_admitting(&self, gate: Gate, near: Sight, far: Sight) -> &[u32]
        ensures numbers { result.now ≡ numbers_where (is_admitting (number_of (kind_of gate)) near far) 1 self.now }
        ensures sound { All IsSound self.now }
    {
        let kind = kind_number(gate) as usize;
        let entry = (kind * WIDTH + near.number() as usize) * WIDTH + far.number() as usize;
        let numbers = &self.admitting[entry];
        if !self.admitted[entry] {
            return &[];
        }
        numbers.as_slice()
    }

    /// Whether the row with this number may have a redex at a gate with these lanes on its last and on its first wire. False where
    /// there is no such row.
    #[tactic(auto, using(crate::proofs::LaneLaws::met_numbered, crate::proofs::LaneLaws::none_numbered))]
    pub fn may_begin(&self, number: u32, last: &Lane, first: &Lane) -> bool
        ensures { result ≡ admits_begin (row_numbered self.now number) last.now first.now }
    {
        if number == 0 {
            return false;
        }
        match self.ahead.get(number as usize - 1) {
            Some(asked) => are_met(asked, last, first),
            None => false,
        }
    }

    /// Whether `rows_admitting` has a number for the same gate and sights.
    pub fn has_admitting(&self, gate: Gate, near: Sight, far: Sight) -> bool
        ensures none { result ≡ false → numbers_where (is_admitting (number_of (kind_of gate)) near far) 1 self.now ≡ [] }
        ensures some { result ≡ true → numbers_where (is_admitting (number_of (kind_of gate)) near far) 1 self.now ≢ [] }
    {
        let kind = kind_number(gate) as usize;
        self.admitted[(kind * WIDTH + near.number() as usize) * WIDTH + far.number() as usize]
    }
}

// Rows and rules cross threads.
fn rules_cross_threads() {
    crosses_threads::<Row>();
    crosses_threads::<Rules>();
}

// All rows are sound, since each of them is.
fn rows_are_sound(rows: &[Row])
    ensures { All IsSound rows.now }
{
    for row in rows {
        let _phase = row.phase();
    }
}

// whether the row's pattern starts with a gate of the kind of this number
fn starts(row: &Row, of_kind: u8) -> bool
    ensures { result ≡ begins of_kind row.now.pattern }
{
    match row.pattern() {
        [first, ..] => first.kind().number() == of_kind,
        [] => false,
    }
}

// appends the number where it is wanted
fn push_where(numbers: &mut Vec<u32>, number: u32, wanted: bool) -> Result<(), OutOfMemory>
    ensures { IfOk result (λ _. numbers.new.items ≡ numbers.old.items ++ cond wanted (number ∷ []) []) }
{
    if wanted {
        numbers.push(number)?;
    }
    Ok(())
}

// the numbers of the rows that start with a gate of the kind of this number
fn numbers_of(alloc: Global, rows: &[Row], of_kind: u8) -> Result<Vec<u32>, OutOfMemory>
    requires { length rows.now ≤ MAX_ROWS }
    ensures { IfOk result (λ numbers. numbers.items ≡ numbers_starting of_kind 1 rows.now) }
{
    let mut numbers = Vec::new(alloc);
    let mut number = 1;
    for row in rows {
        push_where(&mut numbers, number, starts(row, of_kind))?;
        number += 1;
    }
    Ok(numbers)
}

// the same for each kind
fn index_of(alloc: Global, rows: &[Row]) -> Result<Vec<Vec<u32>>, OutOfMemory>
    requires { length rows.now ≤ MAX_ROWS }
    ensures len { IfOk result (λ index. vec_len index ≡ KINDS) }
    ensures numbers { IfOk result (λ index. (k : ℕ) (d : _) → k < KINDS → (slice_index_or index.items k d).items ≡ numbers_starting k 1 rows.now) }
{
    let mut index = Vec::with_capacity(alloc, KINDS as usize)?;
    for of_kind in 0..KINDS {
        index.push_reserved(numbers_of(alloc, rows, of_kind)?);
    }
    Ok(index)
}

// whether the row may have a redex at a gate of this kind, where these two are seen next on its last wire
fn admits_seen(row: &Row, of_kind: u8, near: Seen, far: Seen) -> bool
    ensures { result ≡ is_admitting of_kind near far row.now }
{
    starts(row, of_kind) && is_admitted(row.pattern(), near, far)
}

// the numbers of these rows
fn numbers_admitting(
    alloc: Global,
    rows: &[Row],
    of_kind: u8,
    near: Seen,
    far: Seen,
) -> Result<Vec<u32>, OutOfMemory>
    requires { length rows.now ≤ MAX_ROWS }
    ensures { IfOk result (λ numbers. numbers.items ≡ numbers_where (is_admitting of_kind near far) 1 rows.now) }
{
    let mut numbers = Vec::new(alloc);
    let mut number = 1;
    for row in rows {
        push_where(&mut numbers, number, admits_seen(row, of_kind, near, far))?;
        number += 1;
    }
    Ok(numbers)
}

// the same for each kind and whatever is seen
fn table_of(alloc: Global, rows: &[Row]) -> Result<Vec<Vec<u32>>, OutOfMemory>
    requires { length rows.now ≤ MAX_ROWS }
    ensures len { IfOk result (λ table. vec_len table ≡ ENTRIES) }
    ensures numbers { IfOk result (λ table. (k : ℕ) (near far : Seen) (d : _) → k < KINDS →
        (slice_index_or table.items (entry_of k near far) d).items ≡ numbers_where (is_admitting k near far) 1 rows.now) }
{
    let mut table = Vec::with_capacity(alloc, ENTRIES)?;
    for entry in 0..ENTRIES {
        let of_kind = (entry / (WIDTH * WIDTH)) as u8;
        let near = seen_numbered((entry / WIDTH % WIDTH) as u8);
        let far = seen_numbered((entry % WIDTH) as u8);
        table.push_reserved(numbers_admitting(alloc, rows, of_kind, near, far)?);
    }
    Ok(table)
}

// for each entry, whether it has a number
fn noted(alloc: Global, table: &[Vec<u32>]) -> Result<Vec<bool>, OutOfMemory>
    requires { length table.now ≡ ENTRIES }
    ensures len { IfOk result (λ noted. vec_len noted ≡ ENTRIES) }
    ensures none { IfOk result (λ noted. (entry : ℕ) (d : _) (e : Bool) → entry < ENTRIES → slice_index_or noted.items entry e ≡ false →
        (slice_index_or table.now entry d).items ≡ []) }
    ensures some { IfOk result (λ noted. (entry : ℕ) (d : _) (e : Bool) → entry < ENTRIES → slice_index_or noted.items entry e ≡ true →
        (slice_index_or table.now entry d).items ≢ []) }
{
    let mut noted = Vec::with_capacity(alloc, ENTRIES)?;
    for entry in 0..ENTRIES {
        noted.push_reserved(!table[entry].is_empty());
    }
    Ok(noted)
}

// what the patterns of these rows ask
fn ahead_of(alloc: Global, rows: &[Row]) -> Result<Vec<Demands>, OutOfMemory>
    ensures { IfOk result (λ ahead. ahead.items ≡ map demands rows.now) }
{
    let mut ahead = Vec::with_capacity(alloc, rows.len())?;
    for row in rows {
        ahead.push_reserved(demands_on(row.pattern()));
    }
    Ok(ahead)
}

// the rows of rules of the table
fn rows_of(alloc: Global, rules: &[BuiltinRule]) -> Result<Vec<Row>, OutOfMemory>
    requires few { length rules.now ≤ MAX_ROWS }
    requires sound { All (λ rule. IsSound (rule_row rule)) rules.now }
    ensures rows { IfOk result (λ rows. rows.items ≡ map rule_row rules.now) }
    ensures count { IfOk result (λ rows. vec_len rows ≡ length rules.now) }
{
    let mut rows = Vec::with_capacity(alloc, rules.len())?;
    for rule in rules {
        rows.push_reserved(row_of(alloc, rule)?);
    }
    Ok(rows)
}

// the row of a rule of the table
fn row_of(alloc: Global, rule: &BuiltinRule) -> Result<Row, OutOfMemory>
    requires { IsSound (rule_row rule.now) }
    ensures { IfOk result (λ row. row ≡ rule_row rule.now) }
{
    let pattern = Vec::from_slice(alloc, rule.pattern)?;
    let replacement = Vec::from_slice(alloc, rule.replacement)?;
    let raw = RawRow {
        wires: rule.wires,
        pattern: GateList::of(pattern),
        replacement: GateList::of(replacement),
    };
    Ok(Row::checked(raw, rule.phase))
}
