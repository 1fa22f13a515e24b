use pq_limits::MAX_ROW_GATES;

/// A place where a row of rules may rewrite a list of gates.
#[derive(Clone, Copy, Debug, PartialEq, Eq)]
pub struct Redex {
    /// The number of the row, counted from 1.
    pub row: u32,

    /// How many gates its pattern has, at most 8.
    pub count: u8,

    /// The places of these gates in the list, rising, counted from 0; 0 past the first `count`.
    pub places: [u32; MAX_ROW_GATES],
}
