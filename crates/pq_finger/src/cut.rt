ghost use Rattle.std.specs.Prelude.{◌≡◌, ◌↔◌, ◌&&◌, ◌||◌, not, ◌==◌, IsTrue};
ghost use Rattle.pq_gaps.specs.Gaps.{is_inside};
ghost use Rattle.pq_finger.specs.Settling.{IsBefore};

/// What a round did at one selected finger. Places are those of the cells before the round.
#[derive(Clone, Copy, Debug, PartialEq, Eq)]
pub struct Cut {
    /// The index of the finger.
    pub finger: u64,
    /// The place of the first gate of the segment, or the end where the segment is empty.
    pub from: u64,
    /// The place of the first live gate after the segment, or the end where there is none.
    pub to: u64,
    /// Whether the segment of the finger was improved.
    pub improved: bool,
    /// Whether the segment begins at gap 0.
    pub at_start: bool,
    /// Whether the segment ends at the number of live gates.
    pub at_end: bool,
}

impl Cut {
    /// Whether the finger of this index, which stands at this place, is dropped: it was selected, or
    /// stands strictly inside the segment, which was improved.
    pub(crate) fn drops(&self, index: u64, place: u64) -> bool
        ensures { result ≡ ((index == self.now.finger) || is_inside self.now.improved self.now.from self.now.to place) }
    {
        index == self.finger || self.improved && self.from < place && place < self.to
    }

    /// Whether the place where the segment begins becomes a finger.
    pub(crate) fn keeps_from(&self) -> bool
        ensures { result ≡ (self.now.improved && not self.now.at_start) }
    {
        self.improved && !self.at_start
    }

    /// Whether the place where the segment ends becomes a finger.
    pub(crate) fn keeps_to(&self) -> bool
        ensures { result ≡ (self.now.improved && not self.now.at_end) }
    {
        self.improved && !self.at_end
    }

    /// Whether the cut's finger and its segment come before the finger of this index at this place.
    pub(crate) fn is_before(&self, index: u64, place: u64) -> bool
        ensures { IsTrue result ↔ IsBefore index place self.now }
    {
        self.finger < index && self.to <= place
    }
}
