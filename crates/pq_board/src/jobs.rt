ghost use Rattle.std.specs.Prelude.{◌≡◌, ◌<◌, ◌≤◌, [], ◌∷◌, ◌++◌, length, All, IfOk, OnOk, OnErr, slice_index, slice_index_or};
ghost use Rattle.std.specs.List.{concat};
ghost use Rattle.std.specs.List.Sorted.{IsStrictlyIncreasing};
ghost use Rattle.pq_board.specs.Jobs.{lists_from};

use pq_limits::MAX_JOBS;
use pq_list::{OutOfMemory, crosses_threads};
use std::alloc::Global;
use std::marker::Model;

/// Jobs: at most 1,048,576 lists of places, strictly increasing when they are read in order, so that no
/// place stands twice. A job may be empty. Contracts see the list of the lists.
#[derive(Drop)]
pub struct Jobs {
    places: Vec<u64>,

    // for each job, how many places there are up to its end
    ends: Vec<u64>,
}

impl Model for Jobs {
    ghost use Rattle.std.specs.Prelude.{ℕ, ◌≤◌, List, length};
    ghost use Rattle.std.specs.List.Sorted.{IsStrictlyIncreasing};
    ghost use Rattle.pq_limits.specs.declared.TheConstants.{MAX_JOBS};
    ghost use Rattle.pq_board.specs.Jobs.{lists_from, AreEnds};

    ghost Value = { List (List ℕ) };

    ghost view = { λ a. lists_from 0 a.places.items a.ends.items };

    ghost invariant = { λ a. AreEnds 0 a.places.items a.ends.items × IsStrictlyIncreasing a.places.items × (length a.ends.items ≤ MAX_JOBS) };
}

impl Jobs {
    /// No job. It takes no memory.
    pub fn new(alloc: Global) -> Jobs
        ensures { result ≡ [] }
    {
        Jobs {
            places: Vec::new(alloc),
            ends: Vec::new(alloc),
        }
    }

    /// No job, with room for so many jobs and so many places in all. More may be added.
    pub fn with_room(alloc: Global, jobs: u64, places: u64) -> Result<Jobs, OutOfMemory>
        ensures { IfOk result (λ made. made ≡ []) }
    {
        let places = Vec::with_capacity(alloc, places as usize)?;
        let ends = Vec::with_capacity(alloc, jobs as usize)?;
        Ok(Jobs { places, ends })
    }

    /// Adds a job behind the others. Where memory is refused, the jobs are as they were.
    #[tactic(auto, using(crate::proofs::Listing::ends_more, crate::proofs::Listing::lists_more, crate::proofs::Listing::joined, crate::proofs::Listing::length_lists))]
    pub fn add(&mut self, places: &[u64]) -> Result<(), OutOfMemory>
        requires rising { IsStrictlyIncreasing places.now }
        requires behind { All (λ earlier. All (λ place. earlier < place) places.now) (concat self.old) }
        requires few { length self.old < MAX_JOBS }
        ensures added { OnOk result (self.new ≡ self.old ++ places.now ∷ []) }
        ensures unchanged { OnErr result (self.new ≡ self.old) }
    {
        self.ends.reserve(1)?;
        self.places.extend_from_slice(places)?;
        self.ends.push_reserved(self.places.len() as u64);
        Ok(())
    }

    /// How many jobs there are.
    #[tactic(auto, using(crate::proofs::Listing::length_lists, crate::proofs::Listing::joined_rise))]
    pub fn count(&self) -> u64
        ensures count { result ≡ length self.now }
        ensures few { result ≤ MAX_JOBS }
        ensures rising { IsStrictlyIncreasing (concat self.now) }
    {
        self.ends.len() as u64
    }

    /// The places of a job, which are numbered from 0.
    #[tactic(auto, using(crate::proofs::Listing::length_lists, crate::proofs::Listing::ends_behind, crate::proofs::Listing::ends_within, crate::proofs::Listing::list_is, crate::proofs::Listing::rising_part))]
    pub fn places(&self, job: u64) -> &[u64]
        requires { job < length self.now }
        ensures places { result.now ≡ slice_index_or self.now job [] }
        ensures rising { IsStrictlyIncreasing result.now }
    {
        let job = job as usize;
        let start = start_of(&self.ends, job) as usize;
        let end = start_of(&self.ends, job + 1) as usize;
        &self.places[start..end]
    }
}

/// Where a job begins: where the one before it ends, and the first at 0.
fn start_of(ends: &[u64], job: usize) -> u64
    requires { job ≤ length ends.now }
    ensures { result ≡ slice_index (0 ∷ ends.now) job }
{
    if job == 0 { 0 } else { ends[job - 1] }
}

/// Jobs cross threads.
fn jobs_cross_threads() {
    crosses_threads::<Jobs>();
}
