/// The numbers of a round.
#[derive(Clone, Copy, Debug, PartialEq, Eq)]
pub struct Step {
    /// How many fingers were selected. The segment of each was given to the oracle.
    pub selected: u64,

    /// How many segments were improved.
    pub improved: u64,

    /// How many gates were removed.
    pub removed: u64,

    /// By how many eighths of a whole turn the old gates turn more than the new ones, from 0 to 7.
    pub phase: u8,
}
