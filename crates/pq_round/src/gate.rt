use std::sync::atomic::{AtomicBool, AtomicU64, Ordering};

/// What workers call before and after they work a ticket.
pub trait WorkGate: Sync {
    /// Called by the worker before it works this ticket.
    fn before(&self, ticket: u64);

    /// Called by the worker when the ticket's result is made.
    fn after(&self, ticket: u64);
}

/// A gate that does nothing.
#[derive(Clone, Copy, Debug, Drop)]
pub struct OpenGate;

impl WorkGate for OpenGate {
    fn before(&self, _ticket: u64) {}

    fn after(&self, _ticket: u64) {}
}

// How often the worker of a held ticket looks whether the other one is worked.
const MOST_LOOKS: u32 = 1_000_000_000;

/// A gate for tests. It holds the worker of one ticket until the result of another one is made, or until it has looked
/// for that 1,000,000,000 times, which is a miss. No clause says what it does.
#[derive(Drop)]
pub struct HeldGate {
    held: u64,
    first: u64,
    is_worked: AtomicBool,
    misses: AtomicU64,
}

impl HeldGate {
    /// The gate that holds `held` until `first` is worked. It takes no memory.
    pub fn new(held: u64, first: u64) -> HeldGate {
        HeldGate {
            held,
            first,
            is_worked: AtomicBool::new(false),
            misses: AtomicU64::new(0),
        }
    }

    /// How many misses there were so far.
    pub fn misses(&self) -> u64 {
        self.misses.load(Ordering::SeqCst)
    }

    // Whether `first` is worked, after some looks at most.
    fn sees_first(&self) -> bool {
        for _ in 0..MOST_LOOKS {
            if self.is_worked.load(Ordering::SeqCst) {
                return true;
            }
        }
        false
    }
}

impl WorkGate for HeldGate {
    fn before(&self, ticket: u64) {
        if ticket == self.held && !self.sees_first() {
            self.misses.fetch_add(1, Ordering::SeqCst);
        }
    }

    fn after(&self, ticket: u64) {
        if ticket == self.first {
            self.is_worked.store(true, Ordering::SeqCst);
        }
    }
}
