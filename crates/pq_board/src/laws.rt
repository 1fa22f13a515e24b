ghost use Rattle.std.specs.Prelude.{◌≡◌, ℕ, ◌+◌, ◌<◌, ◌≤◌, ◌++◌, Option, List, [], ◌∷◌, length, slice_index, Contains};
ghost use Rattle.pq_gate.specs.declared.gate.Gate.{Gate};
ghost use Rattle.pq_array.specs.Cells.{IsLive, live_places};
ghost use Rattle.std.specs.List.{concat};
ghost use Rattle.pq_limits.specs.declared.TheConstants.{MAX_WORKERS};
ghost use Rattle.pq_array.specs.Counts.{Counts};
ghost use Rattle.pq_board.specs.Ways.{way, live_leaves};
ghost use Rattle.pq_board.specs.Law.{IsPlan, Lawful, leaves, job, nodes_at};
ghost use Rattle.pq_board.specs.Steps.{unused, places_under, without};
ghost use Rattle.pq_board.specs.Kinds.{Seated, Step};
ghost use Rattle.pq_board.specs.declared.plan.Plan.{Plan};
ghost use Rattle.pq_board.specs.declared.plan.View.{View};

/// The law of a board: it holds at the opening, and each kind of step keeps it, so it holds between any two
/// steps of any passes. Then each word of the tree lies between its opening value and that value less the
/// places of the jobs below its node, and no step lowers a word that is 0 (`room`). Word 0 is at most the number of
/// jobs and of passes.
pub fn board_law()
    ensures opened { (plan : Plan) → IsPlan plan → slice_index plan.words.items 0 ≡ 0 →
        Lawful plan plan.words.items (unused plan plan.passes ∷ []) }
    ensures kept { (plan : Plan) (words after : List ℕ) (views views_after : List View) →
        Lawful plan words views → Step plan words views after views_after → Lawful plan after views_after }
    ensures room { (plan : Plan) (words : List ℕ) (views : List View) (seat : ℕ) (view : View) (ticket place node : ℕ) (rest : List ℕ) →
        Lawful plan words views → Seated plan views seat view → 1 ≤ node → Contains view.tickets ticket → ticket < length plan.jobs →
        Contains (job plan ticket) place → nodes_at place view.lowered ++ node ∷ rest ≡ way (leaves plan) place → 1 ≤ slice_index words node }
    ensures most { (plan : Plan) (words : List ℕ) (views : List View) → Lawful plan words views →
        (node : ℕ) → 1 ≤ node → slice_index words node ≤ slice_index plan.words.items node }
    ensures least { (plan : Plan) (words : List ℕ) (views : List View) → Lawful plan words views →
        (node : ℕ) → 1 ≤ node → slice_index plan.words.items node ≤ slice_index words node + places_under plan node (concat plan.jobs) }
    ensures few { (plan : Plan) (words : List ℕ) (views : List View) → Lawful plan words views →
        slice_index words 0 ≤ length plan.jobs + MAX_WORKERS }
{}

/// What words count is what their live leaves are.
pub fn leaves_law()
    ensures { (words live : List ℕ) → Counts words live → live_leaves words ≡ live }
{}

/// Where cells became tombstones and no other cell changed whether it is live, the live places are those that
/// were, without the ones that are gone. So the words that `close` gives are those of the tree over the cells
/// in which the lowered places are tombstones.
pub fn cells_law()
    ensures { (old new : List (Option Gate)) (gone : List ℕ) → length new ≡ length old →
        ((place : ℕ) → IsLive old place → (Contains gone place → ⊥) → IsLive new place) →
        ((place : ℕ) → IsLive new place → IsLive old place × (Contains gone place → ⊥)) →
        live_places new ≡ without gone (live_places old) }
{}
