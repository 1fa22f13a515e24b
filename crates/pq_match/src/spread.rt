//! Gates spread over slots, and closed up again.

ghost use Rattle.std.specs.Prelude.{◌≡◌, ◌*◌, ◌≤◌, length, vec_len, vec_capacity};
ghost use Rattle.pq_links.specs.Slots.{spread, gates_in};

use crate::runs::is_free;
use pq_gate::Gate;
use pq_links::NO_WIRE;
use pq_list::resize_reserved;

/// Each gate in a slot of its own, with a free one behind it.
pub fn spread_over(slots: &mut Vec<Gate>, gates: &[Gate])
    requires { 2 * length gates.now ≤ vec_capacity slots.old }
    ensures slots { slots.new.items ≡ spread gates.now }
    ensures capacity { vec_capacity slots.new ≡ vec_capacity slots.old }
{
    resize_reserved(slots, 2 * gates.len(), Gate::cx(NO_WIRE, NO_WIRE));
    write_spread(slots.as_mut_slice(), gates);
}

// the same in a list that is long enough, so that nothing branches
fn write_spread(slots: &mut [Gate], gates: &[Gate])
    requires { length slots.old ≡ 2 * length gates.now }
    ensures { slots.new ≡ spread gates.now }
{
    for place in 0..gates.len() {
        slots[2 * place] = gates[place];
        slots[2 * place + 1] = Gate::cx(NO_WIRE, NO_WIRE);
    }
}

/// The gates in the slots, in order.
#[tactic(auto, using(crate::proofs::Spreading::written_free, crate::proofs::Spreading::written_taken, crate::proofs::Spreading::written_room))]
pub fn close_up(slots: &[Gate], gates: &mut Vec<Gate>)
    requires { length (gates_in slots.now) ≤ vec_capacity gates.old }
    ensures gates { gates.new.items ≡ gates_in slots.now }
    ensures capacity { vec_capacity gates.new ≡ vec_capacity gates.old }
{
    gates.clear();
    for slot in slots {
        if !is_free(*slot) {
            gates.push_reserved(*slot);
        }
    }
}
