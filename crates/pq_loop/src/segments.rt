ghost use Rattle.std.specs.Prelude.{◌≡◌, ◌+◌, ◌*◌, ◌<◌, ◌≤◌, ℕ, Bool, List, [], All, AllPairs, IfOk, IsTrue, length, map, slice_index, vec_capacity};
ghost use Rattle.std.specs.List.Sorted.{IsStrictlyIncreasing};
ghost use Rattle.std.specs.List.{AllZip};
ghost use Rattle.pq_array.specs.Cells.{live, rank, IsLive};
ghost use Rattle.pq_gaps.specs.Gaps.{GapCut, segment_from, segment_to};
ghost use Rattle.pq_finger.specs.Ranks.{IsAtPlaces};
ghost use Rattle.pq_limits.specs.Limits.{IsOmega};
ghost use Rattle.pq_oracle.specs.Outcomes.{WorkedView};
ghost use Rattle.pq_method.specs.Round.{cut_of};
ghost use Rattle.pq_loop.specs.Segments.{stands, AreOfRun, AreJobs, AreSegments, AreOfFingers, IsCutHere, flagged, told, works_in};

use pq_array::GateArray;
use pq_board::Jobs;
use pq_finger::{Cut, Fingers};
use pq_limits::MAX_GATES;
use pq_list::{OutOfMemory, PlaceList};
use pq_oracle::Worked;
use std::alloc::Global;

/// The segments of the selected fingers of a round.
#[derive(Drop)]
pub struct Segments {
    /// How far a segment reaches to both sides of its finger.
    pub omega: u32,

    /// The indexes of the fingers.
    pub fingers: PlaceList,

    /// The gaps of the fingers.
    pub gaps: Vec<u64>,

    /// For each, the places of the gates of its segment.
    pub jobs: Jobs,
}

/// The segments of those fingers that a round selects. Each finger is at the place of a live gate, or
/// at the end.
pub fn segments_of(
    alloc: Global,
    array: &GateArray,
    fingers: &Fingers,
    omega: u32,
) -> Result<Segments, OutOfMemory>
    requires omega { IsOmega omega }
    requires few { length array.now ≤ MAX_GATES }
    requires stand { All (λ place. IsTrue (stands array.now place)) fingers.now }
    ensures omega { IfOk result (λ segments. segments.omega ≡ omega) }
    ensures segments { IfOk result (λ segments. AreSegments array.now segments) }
    ensures fingers { IfOk result (λ segments. AreOfFingers array.now fingers.now segments) }
    ensures live { IfOk result (λ segments. All (λ places. All (IsLive array.now) places) segments.jobs) }
    ensures short { IfOk result (λ segments. All (λ places. length places ≤ 2 * omega) segments.jobs) }
{
    let all = gaps_of(alloc, array, fingers)?;
    let selected = fingers.select(alloc, all.as_slice(), omega)?;
    let gaps = picked(alloc, all.as_slice(), selected.as_slice())?;
    let jobs = jobs_of(
        alloc,
        array,
        gaps.as_slice(),
        fingers.places(),
        selected.as_slice(),
        omega,
    )?;
    Ok(Segments {
        omega,
        fingers: selected,
        gaps,
        jobs,
    })
}

/// The gaps of fingers.
pub fn gaps_of(alloc: Global, array: &GateArray, fingers: &Fingers) -> Result<Vec<u64>, OutOfMemory>
    requires { All (λ place. IsTrue (stands array.now place)) fingers.now }
    ensures gaps { IfOk result (λ gaps. gaps.items ≡ map (rank array.now) fingers.now) }
    ensures rising { IfOk result (λ gaps. IsStrictlyIncreasing gaps.items) }
{
    ranks_of(alloc, array, fingers.places())
}

/// The ranks of places that rise, each counted on from the one before.
fn ranks_of(alloc: Global, array: &GateArray, places: &[u64]) -> Result<Vec<u64>, OutOfMemory>
    requires inside { All (λ place. place ≤ length array.now) places.now }
    requires rising { IsStrictlyIncreasing places.now }
    ensures { IfOk result (λ ranks. ranks.items ≡ map (rank array.now) places.now) }
{
    let mut ranks = Vec::with_capacity(alloc, places.len())?;
    let mut earlier = 0;
    let mut before = 0;
    for place in places {
        before = array.rank_from(earlier, before, *place);
        earlier = *place;
        ranks.push_reserved(before);
    }
    Ok(ranks)
}

/// The gaps with these indexes.
fn picked(alloc: Global, gaps: &[u64], indexes: &[u64]) -> Result<Vec<u64>, OutOfMemory>
    requires { All (λ index. index < length gaps.now) indexes.now }
    ensures { IfOk result (λ list. list.items ≡ map (slice_index gaps.now) indexes.now) }
{
    indexes
        .iter()
        .map(|index| gaps[*index as usize])
        .collect(alloc)
}

/// For each gap the places of the gates of its segment. The gaps are those of the fingers with these indexes, of all that
/// stand at these places.
fn jobs_of(
    alloc: Global,
    array: &GateArray,
    gaps: &[u64],
    places: &[u64],
    indexes: &[u64],
    omega: u32,
) -> Result<Jobs, OutOfMemory>
    requires omega { IsOmega omega }
    requires few { length array.now ≤ MAX_GATES }
    requires apart { AllPairs (λ gap later. gap + 2 * omega ≤ later) gaps.now }
    requires inside { All (λ gap. gap ≤ length (live array.now)) gaps.now }
    requires places { All (λ place. place ≤ length array.now) places.now }
    requires in_range { All (λ index. index < length places.now) indexes.now }
    requires ranks { map (λ index. rank array.now (slice_index places.now index)) indexes.now ≡ gaps.now }
    ensures { IfOk result (λ jobs. AreJobs array.now omega gaps.now jobs) }
{
    let mut jobs = room_for(alloc, array, gaps.len() as u64, omega)?;
    let mut list = Vec::with_capacity(alloc, 2 * omega as usize)?;
    for gap in gaps {
        let (from, to) = segment(*gap, array.live(), omega);
        let index = indexes[jobs.count() as usize];
        let start = array.back(places[index as usize], *gap - from);
        put_places(&mut list, array, start, from, to);
        jobs.add(list.as_slice())?;
    }
    Ok(jobs)
}

/// No job, with room for those of so many segments.
fn room_for(
    alloc: Global,
    array: &GateArray,
    segments: u64,
    omega: u32,
) -> Result<Jobs, OutOfMemory>
    ensures { IfOk result (λ jobs. jobs ≡ []) }
{
    let most = segments.saturating_mul(2 * u64::from(omega));
    Jobs::with_room(alloc, segments, most.min(array.live()))
}

/// The gaps from which and to which the segment of the finger at a gap goes.
fn segment(gap: u64, live: u64, omega: u32) -> (u64, u64)
    requires gap { gap ≤ live }
    requires few { live ≤ MAX_GATES }
    ensures from { result.0 ≡ segment_from omega gap }
    ensures to { result.1 ≡ segment_to omega live gap }
{
    let reach = u64::from(omega);
    (gap.saturating_sub(reach), live.min(gap + reach))
}

/// Makes the list that of the places of the live gates from one gap to another. The first gap is that of the start.
fn put_places(list: &mut Vec<u64>, array: &GateArray, start: u64, from: u64, to: u64)
    requires start { rank array.now start ≡ from }
    requires start_inside { start ≤ length array.now }
    requires up { from ≤ to }
    requires inside { to ≤ length (live array.now) }
    requires room { to ≤ from + vec_capacity list.old }
    requires few { length array.now ≤ MAX_GATES }
    ensures places { AreOfRun array.now from to list.new.items }
    ensures rising { IsStrictlyIncreasing list.new.items }
    ensures capacity { vec_capacity list.new ≡ vec_capacity list.old }
{
    list.clear();
    let mut place = start;
    for _number in from..to {
        place = live_from(array, place);
        list.push_reserved(place);
        place += 1;
    }
}

/// The least live place from this one on.
fn live_from(array: &GateArray, place: u64) -> u64
    requires { rank array.now place < length (live array.now) }
    ensures live { IsLive array.now result }
    ensures rank { rank array.now result ≡ rank array.now place }
    ensures after { place ≤ result }
{
    if array.is_live(place) {
        return place;
    }
    array.next_live(place).unwrap()
}

/// The least live place from this one on, or the end.
#[tactic(auto, using(crate::proofs::Moving::next_stands))]
pub fn live_or_end(array: &GateArray, place: u64) -> u64
    ensures stands { IsTrue (stands array.now result) }
    ensures rank { rank array.now result ≡ rank array.now place }
{
    array.next_live(place).unwrap_or(array.cells())
}

/// The place of the gap where a segment begins: that of the first of its places, which go from one gap to another.
#[tactic(auto, using(crate::proofs::Ends::begins_stands, crate::proofs::Ends::begins_rank))]
fn begin_of(array: &GateArray, places: &[u64], from: u64, to: u64) -> u64
    requires run { AreOfRun array.now from to places.now }
    requires empty { to ≤ from → from ≡ length (live array.now) }
    ensures stands { IsTrue (stands array.now result) }
    ensures rank { rank array.now result ≡ from }
{
    if places.is_empty() {
        array.cells()
    } else {
        places[0]
    }
}

/// The place of the gap where it ends: the next live place behind the last of its places, or the end.
#[tactic(auto, using(crate::proofs::Ends::ends_inside, crate::proofs::Ends::ends_rank))]
fn end_of(array: &GateArray, places: &[u64], from: u64, to: u64) -> u64
    requires run { AreOfRun array.now from to places.now }
    requires up { from ≤ to }
    requires empty { to ≤ from → to ≡ length (live array.now) }
    requires few { length array.now ≤ MAX_GATES }
    ensures stands { IsTrue (stands array.now result) }
    ensures rank { rank array.now result ≡ to }
{
    if places.is_empty() {
        array.cells()
    } else {
        live_or_end(array, places[places.len() - 1] + 1)
    }
}

/// Where the segment of a finger of this index and gap begins and ends, as if it weren't improved. Its gates are at these
/// places.
fn cut_at(array: &GateArray, finger: u64, gap: u64, omega: u32, places: &[u64]) -> Cut
    requires omega { IsOmega omega }
    requires gap { gap ≤ length (live array.now) }
    requires few { length array.now ≤ MAX_GATES }
    requires run { AreOfRun array.now (segment_from omega gap) (segment_to omega (length (live array.now)) gap) places.now }
    ensures { (improved : Bool) (places : List ℕ) (gaps : GapCut) → IsCutHere (length (live array.now)) omega gap improved gaps →
        finger < length places → rank array.now (slice_index places finger) ≡ gap →
        IsAtPlaces (rank array.now) (stands array.now) (length (live array.now)) places gaps (flagged improved result) }
{
    let live = array.live();
    let (from, to) = segment(gap, live, omega);
    Cut {
        finger,
        improved: false,
        from: begin_of(array, places, from, to),
        to: end_of(array, places, from, to),
        at_start: from == 0,
        at_end: to == live,
    }
}

impl Segments {
    /// Where each segment begins and ends, told at places. The array is the one before the round. With the words of the
    /// round's results these are what the round did at each.
    pub fn ends(&self, alloc: Global, array: &GateArray) -> Result<Vec<Cut>, OutOfMemory>
        requires omega { IsOmega self.now.omega }
        requires segments { AreSegments array.now self.now }
        requires fingers { length self.now.fingers.items ≡ length self.now.gaps.items }
        requires few { length array.now ≤ MAX_GATES }
        ensures count { IfOk result (λ ends. length ends.items ≡ length self.now.gaps.items) }
        ensures at_places { IfOk result (λ ends. (places : List ℕ) (results : List WorkedView) → AreOfFingers array.now places self.now →
            length results ≡ length self.now.gaps.items →
            AllZip (IsAtPlaces (rank array.now) (stands array.now) (length (live array.now)) places)
            (map cut_of (works_in array.now self.now results)) (told ends.items results)) }
    {
        let mut ends = Vec::with_capacity(alloc, self.gaps.len())?;
        for number in 0..self.gaps.len() {
            let finger = self.fingers.as_slice()[number];
            let places = self.jobs.places(number as u64);
            ends.push_reserved(cut_at(array, finger, self.gaps[number], self.omega, places));
        }
        Ok(ends)
    }
}

/// The cuts, each with the word of its result. It takes no memory.
pub fn cuts_of(ends: Vec<Cut>, results: &[Worked]) -> Vec<Cut>
    requires { length ends.items ≡ length results.now }
    ensures { result.items ≡ told ends.items results.now }
{
    let mut cuts = ends;
    for number in 0..results.len() {
        cuts[number].improved = results[number].improved();
    }
    cuts
}
