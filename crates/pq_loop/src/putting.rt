ghost use Rattle.std.specs.Prelude.{◌≡◌, ◌+◌, ◌≤◌, ℕ, true, false, List, All, length, map, slice_index};
ghost use Rattle.std.specs.List.{AllZip};
ghost use Rattle.pq_array.specs.Cells.{live, live_places, rank, spliced, IsLiveRun, Replaces};
ghost use Rattle.pq_finger.specs.Ranks.{IsAtPlaces, LosesGates};
ghost use Rattle.pq_finger.specs.declared.cut.Cut.{Cut};
ghost use Rattle.pq_match.specs.Row.{RowView, IsSound};
ghost use Rattle.pq_board.specs.Steps.{without};
ghost use Rattle.pq_round.specs.Results.{AreResults, all_given_up};
ghost use Rattle.pq_method.specs.Round.{joined, cut_of};
ghost use Rattle.pq_loop.specs.Segments.{stands, AreSegments, works_in};

use crate::segments::Segments;
use pq_array::Cells;
use pq_oracle::Worked;

impl Segments {
    /// Puts what the oracle left of the improved segments in their places, the last one first.
    pub fn put(&self, cells: &mut Cells, results: &[Worked])
        requires segments { AreSegments cells.old self.now }
        requires results { (rules : List RowView) × All IsSound rules × AreResults cells.old self.now.jobs rules results.now }
        ensures size { length cells.new ≡ length cells.old }
        ensures gone { live_places cells.new ≡ without (all_given_up self.now.jobs results.now) (live_places cells.old) }
        ensures shorter { length (live cells.new) ≤ length (live cells.old) }
        ensures gates { live cells.new ≡ joined (live cells.old) (works_in cells.old self.now results.now) }
        ensures loses { (places : List ℕ) (cuts : List Cut) →
            AllZip (IsAtPlaces (rank cells.old) (stands cells.old) (length (live cells.old)) places)
            (map cut_of (works_in cells.old self.now results.now)) cuts →
            LosesGates (rank cells.old) (rank cells.new) (map cut_of (works_in cells.old self.now results.now)) cuts }
    {
        for ticket in (0..results.len()).rev() {
            put_result(cells, self.jobs.places(ticket as u64), &results[ticket]);
        }
    }
}

/// Puts the output of an improved segment at its places.
fn put_result(cells: &mut Cells, places: &[u64], worked: &Worked)
    requires run { IsLiveRun cells.old places.now }
    requires no_longer { length worked.now.answer.gates ≤ length places.now }
    ensures same { worked.now.answer.improved ≡ false → cells.new ≡ cells.old }
    ensures cells { worked.now.answer.improved ≡ true → Replaces cells.old cells.new places.now worked.now.answer.gates }
    ensures live { worked.now.answer.improved ≡ true → let first = rank cells.old (slice_index places.now 0) in
        live cells.new ≡ spliced (live cells.old) first (first + length places.now) worked.now.answer.gates }
{
    if worked.improved() {
        cells.replace(places, worked.output());
    }
}
