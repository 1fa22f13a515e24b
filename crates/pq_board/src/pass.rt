ghost use Rattle.std.specs.Prelude.{◌≡◌};
ghost use Rattle.pq_board.specs.Law.{leaves};
ghost use Rattle.pq_board.specs.Steps.{AreWhole};

use crate::plan::View;
use atomic_table::Seat;
use std::marker::Model;

/// The right to step on a board. Contracts see its board, and what it knows: its rights, its tickets and
/// its lowerings. It is spent by `join` or `close`, and else can't be let go.
pub struct Pass {
    pub(crate) seat: Seat<(), View>,
    pub(crate) rights: u32,
}

impl Model for Pass {
    ghost use Rattle.std.specs.Prelude.{◌≡◌, []};
    ghost use Rattle.pq_board.specs.Law.{leaves};
    ghost use Rattle.pq_board.specs.Steps.{AreWhole, Held};

    ghost Value = { Held };

    ghost view = { λ p. record { board = p.seat.table_id; view = p.seat.me.0 } };

    ghost invariant = { λ p. (p.rights ≡ p.seat.me.0.rights) × (p.seat.me.1 ≡ []) × AreWhole (leaves p.seat.me.0.plan) p.seat.me.0.lowered };
}

impl Pass {
    /// How many rights it has: each is good for one late ticket. Each place that the pass lowered was
    /// lowered at its whole way to the root.
    pub fn rights(&self) -> u32
        ensures rights { result ≡ self.now.view.rights }
        ensures whole { AreWhole (leaves self.now.view.plan) self.now.view.lowered }
    {
        self.rights
    }
}

/// What may be handed to another thread.
fn may_be_sent<T: Send>() {}

/// A pass may be handed to another thread.
fn pass_may_be_sent() {
    may_be_sent::<Pass>();
}
