ghost use Rattle.std.specs.Prelude.{◌≡◌, ◌<◌, ◌≤◌, All, IfOk, map, length, slice_index};
ghost use Rattle.std.specs.List.Sorted.{IsNonDecreasing, IsStrictlyIncreasing};
ghost use Rattle.pq_gaps.specs.Gaps.{first_fingers, selected, ascending};
ghost use Rattle.pq_limits.specs.Limits.{IsOmega};
ghost use Rattle.pq_finger.specs.Settled.{settled, AreInOrder};

use crate::cut::Cut;
use crate::selecting::stands_apart;
use crate::settling::{settle_boundaries, settle_fingers};
use pq_list::{OutOfMemory, PlaceList};
use std::alloc::Global;
use std::marker::Model;

/// The fingers: a strictly increasing list of places where a circuit is still to be looked at.
/// Contracts see the list.
#[derive(Drop)]
pub struct Fingers {
    places: Vec<u64>,
}

impl Model for Fingers {
    ghost use Rattle.std.specs.Prelude.{List, ℕ};
    ghost use Rattle.std.specs.List.Sorted.{IsStrictlyIncreasing};

    ghost Value = { List ℕ };

    ghost view = { λ a. a.places.items };

    ghost invariant = { λ a. IsStrictlyIncreasing a.places.items };
}

impl Fingers {
    /// The first fingers of an array of live cells alone: a finger at each multiple of Omega that is
    /// less than the number of live cells. Omega is 2 to 1,024.
    pub fn first(alloc: Global, live: u64, omega: u32) -> Result<Fingers, OutOfMemory>
        requires { IsOmega omega }
        ensures { IfOk result (λ fingers. fingers ≡ first_fingers live omega) }
    {
        let omega = u64::from(omega);
        let count = live.div_ceil(omega);
        let mut places = Vec::with_capacity(alloc, count as usize)?;
        for number in 0..count {
            places.push_reserved(number * omega);
        }
        Ok(Fingers { places })
    }

    /// The places of the fingers.
    pub fn places(&self) -> &[u64]
        ensures places { result.now ≡ self.now }
        ensures rising { IsStrictlyIncreasing self.now }
    {
        self.places.as_slice()
    }

    /// The indexes of the fingers that a round selects, where `ranks` are the gaps of the fingers: the
    /// first, and then each next one that stands at least 2 * Omega after the last selected one.
    pub fn select(&self, alloc: Global, ranks: &[u64], omega: u32) -> Result<PlaceList, OutOfMemory>
        requires count { length ranks.now ≡ length self.now }
        requires rising { IsStrictlyIncreasing ranks.now }
        ensures in_range { IfOk result (λ list. All (λ index. index < length self.now) list.items) }
        ensures rising { IfOk result (λ list. IsStrictlyIncreasing list.items) }
        ensures selected { IfOk result (λ list. map (slice_index ranks.now) list.items ≡ selected omega ranks.now) }

        // The list has no room for more.
        ensures full { IfOk result (λ list. list.room ≡ length list.items) }
    {
        let mut indexes = Vec::with_capacity(alloc, ranks.len())?;
        let mut last = None;
        for (index, rank) in ranks.iter().enumerate() {
            if stands_apart(*rank, last, omega) {
                indexes.push_reserved(index as u64);
                last = Some(*rank);
            }
        }
        Ok(PlaceList::of(indexes))
    }

    /// The fingers after a round that made these cuts, one for each selected finger, in order. The
    /// selected fingers are dropped, and those strictly inside an improved segment. The boundaries of
    /// an improved segment become fingers, but for the start and the end. All are at old places.
    pub fn settle(&self, alloc: Global, cuts: &[Cut]) -> Result<Fingers, OutOfMemory>
        requires { AreInOrder self.now cuts.now }
        ensures { IfOk result (λ fingers. fingers ≡ settled self.now cuts.now) }
    {
        let mut places = Vec::with_capacity(alloc, self.places.len() + 2 * cuts.len())?;
        let behind = settle_fingers(&mut places, self.places.as_slice(), cuts);
        settle_boundaries(&mut places, &cuts[behind..]);
        Ok(Fingers { places })
    }

    /// The fingers at new places, one for each finger, not falling. Repeats are dropped. It takes no
    /// memory.
    pub fn moved(self, to: &[u64]) -> Fingers
        requires count { length to.now ≡ length self }
        requires not_falling { IsNonDecreasing to.now }
        ensures { result ≡ ascending to.now }
    {
        let mut places = self.places;
        places.copy_from_slice(to);
        drop_repeats(&mut places);
        Fingers { places }
    }
}

/// Drops repeats from places that don't fall.
fn drop_repeats(places: &mut Vec<u64>)
    requires { IsNonDecreasing places.old.items }
    ensures kept { places.new.items ≡ ascending places.old.items }
    ensures rising { IsStrictlyIncreasing places.new.items }
{
    places.dedup();
}
