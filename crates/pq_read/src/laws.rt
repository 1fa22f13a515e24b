ghost use Rattle.std.specs.Prelude.{◌≡◌, List, [], ◌∷◌, ℕ, Bool};
ghost use Rattle.pq_gate.specs.Matrix.{Entry, h_count};
ghost use Rattle.pq_gate.specs.Ring.{rooted};
ghost use Rattle.pq_read.specs.declared.word.GateWord.TheVariants.{Y, Cz, Cy, Swap, Ccx};
ghost use Rattle.pq_read.specs.Expansion.{expansion};
ghost use Rattle.pq_read.specs.GateMatrices.{y_entry, cz_entry, cy_entry, swap_entry, ccx_entry};
ghost use Rattle.pq_read.specs.declared.program.Options.{Options};
ghost use Rattle.pq_text.specs.Program.{ProgramView};
ghost use Rattle.pq_text.specs.WellFormed.{WellFormed};
ghost use Rattle.pq_lex.specs.Lex.{tokens_of};
ghost use Rattle.pq_read.specs.CutWell.{AreCutWell};
ghost use Rattle.pq_read.specs.Reads.{HasOneAnswer, Reads};

/// Each text with each option stands for exactly one program, or is refused for exactly one fault.
pub fn texts_have_one_answer()
    ensures { (text : List ℕ) (options : Options) → HasOneAnswer text options }
{}

/// The program that a text stands for is well formed.
pub fn programs_are_well_formed()
    ensures { (text : List ℕ) (options : Options) (p : ProgramView) → Reads text options p → WellFormed p }
{}

/// The pieces of a text and its rest leave nothing out: a piece that is accepted is read to its last token, and a
/// rest that isn't the end of the text alone is refused.
pub fn texts_are_cut_well()
    ensures { (text : List ℕ) → AreCutWell (tokens_of text) }
{}

/// The gates that `y`, `cz`, `cy`, `swap` and `ccx` stand for have together the matrix of the gate, without a phase:
/// on the wires 0, 1 and 2, entry by entry, times √2 for each H.
pub fn expansions_have_their_matrices()
    ensures y { (p s : Bool) → Entry (expansion Y 0 1 2) (p ∷ []) (s ∷ []) ≡ y_entry p (s ∷ []) }
    ensures cz { (p q s t : Bool) → Entry (expansion Cz 0 1 2) (p ∷ q ∷ []) (s ∷ t ∷ []) ≡ rooted 2 (cz_entry p q (s ∷ t ∷ [])) }
    ensures cy { (p q s t : Bool) → Entry (expansion Cy 0 1 2) (p ∷ q ∷ []) (s ∷ t ∷ []) ≡ cy_entry p q (s ∷ t ∷ []) }
    ensures swap { (p q s t : Bool) → Entry (expansion Swap 0 1 2) (p ∷ q ∷ []) (s ∷ t ∷ []) ≡ swap_entry p q (s ∷ t ∷ []) }
    ensures ccx { (p q r s t u : Bool) → Entry (expansion Ccx 0 1 2) (p ∷ q ∷ r ∷ []) (s ∷ t ∷ u ∷ []) ≡ rooted 2 (ccx_entry p q r (s ∷ t ∷ u ∷ [])) }
    ensures roots { (h_count (expansion Cz 0 1 2) ≡ 2) × (h_count (expansion Ccx 0 1 2) ≡ 2) }
{}
