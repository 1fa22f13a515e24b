//! Facts about rows and their renaming. Each is the contract of a function that does nothing: a
//! caller's proof has the fact after the call.
#![tactic(auto)]

ghost use Rattle.std.specs.Prelude.{◌≡◌, ℕ, List, All, map};
ghost use Rattle.pq_gate.specs.declared.gate.Gate.{Gate};
ghost use Rattle.pq_gate.specs.Matrix.{Same};
ghost use Rattle.pq_rules.specs.declared.row.RawRow.{RawRow};
ghost use Rattle.pq_rules.specs.declared.row.RowFault.{RowFault};
ghost use Rattle.pq_rules.specs.Fault.{Comes};
ghost use Rattle.pq_rules.specs.Renaming.{IsRenaming, renamed};
ghost use Rattle.pq_rules.specs.Row.{RowView, IsSound};
ghost use Rattle.pq_rules.specs.Table.{builtin_rows};

/// Circuits that have one matrix up to a phase on their wires have it on every wider register,
/// whatever different wires theirs are renamed to. So a row that is sound on its wires is sound
/// wherever it is put.
pub fn same_on_every_register()
    ensures circuits { (m n k : ℕ) (e : List ℕ) (p q : List Gate) → IsRenaming m n e → Same m p q k →
        Same n (map (renamed e) p) (map (renamed e) q) k }
    ensures rows { (n : ℕ) (e : List ℕ) (row : RowView) → IsSound row → IsRenaming row.wires n e →
        Same n (map (renamed e) row.pattern) (map (renamed e) row.replacement) row.phase }
{}

/// At most one fault of a raw row comes.
pub fn one_fault()
    ensures { (raw : RawRow) (one other : RowFault) → Comes raw one → Comes raw other → one ≡ other }
{}

/// The built-in rows are sound.
pub fn builtin_rows_are_sound()
    ensures { All IsSound builtin_rows }
{}
