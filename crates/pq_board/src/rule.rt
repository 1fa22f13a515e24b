ghost use Rattle.std.specs.Prelude.{◌≡◌, ℕ, ◌<◌, All, [], ◌∷◌};
ghost use Rattle.atomic_table.specs.Table.{State, Step, Me};
ghost use Rattle.pq_board.specs.declared.plan.Plan.{Plan};
ghost use Rattle.pq_board.specs.declared.plan.View.{View};
ghost use Rattle.pq_board.specs.Law.{Lawful, spent};
ghost use Rattle.pq_board.specs.Steps.{unused, without_rights, with_ticket, with_lowered, with_both, at_nodes, Looked};

use crate::plan::{Plan, View};
use atomic_table::{Join, Play, Split, TableRule};
use std::marker::{Brand, PhantomData};

/// The law of a board, which each step keeps.
pub struct Law;

impl TableRule<(), View, Plan> for Law {
    ghost holds = { λ plan state. Lawful plan state.words state.views };

    ghost first = { λ plan. unused plan plan.passes };
}

/// A claim draws the number that it finds, which is greater than each ticket of the pass.
pub struct Claims;

impl Play<(), View> for Claims {
    ghost then = { λ step me found after. (after.0 ≡ with_ticket found me.0) × (after.1 ≡ me.1) × All (λ before. before < found) me.0.tickets };
}

/// A look changes nothing.
pub struct Looks;

impl Play<(), View> for Looks {
    ghost then = { λ step me found after. (after.0 ≡ me.0) × (after.1 ≡ me.1) × Looked me.0 found };
}

/// The place that is lowered, and the ticket of its job. Each call of `lower` picks them.
pub trait Aim {
    ghost ticket: { ℕ };

    ghost place: { ℕ };
}

impl Aim for Brand {
    ghost ticket = { 0 };

    ghost place = { 0 };
}

/// One word of the way is lowered.
pub struct Lowers<A: Aim> {
    of: PhantomData<A>,
}

impl<A: Aim> Play<(), View> for Lowers<A> {
    ghost then = { λ step me found after. (after.0 ≡ with_lowered (at_nodes A.ticket A.place (step.word ∷ [])) me.0) × (after.1 ≡ me.1) };
}

/// How many rights a new pass gets. Each call of `split` picks it.
pub trait Part {
    ghost rights: { ℕ };
}

impl Part for Brand {
    ghost rights = { 0 };
}

/// A pass gives rights to a new one.
pub struct Gives<P: Part> {
    of: PhantomData<P>,
}

impl<P: Part> Split<View> for Gives<P> {
    ghost left = { λ view. without_rights P.rights view };

    ghost right = { λ view. unused view.plan P.rights };
}

/// A pass takes over all of another.
pub struct Takes;

impl Join<View> for Takes {
    ghost both = { λ view other. with_both view other };

    ghost spent = { spent };
}
