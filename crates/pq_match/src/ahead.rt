//! What stands behind a start on its wires, up to the first gate there that it can't pass.

ghost use Rattle.std.specs.Prelude.{◌≡◌, ◌≢◌, ◌<◌, length, true, false};
ghost use Rattle.pq_gate.specs.Commuting.{Touches};
ghost use Rattle.pq_rules.specs.Lanes.{no_lane};
ghost use Rattle.pq_links.specs.Wires.{wire_of};
ghost use Rattle.pq_match.specs.Ahead.{IsLaneAlike, IsEndedAt};
ghost use Rattle.pq_match.specs.Redex.{gate_at};
ghost use Rattle.pq_match.specs.Seek.{AreLinkedSlots, LooksAtMore};

use crate::looked::Looked;
use crate::seek::{place_behind, see};
use pq_gate::Gate;
use pq_links::{NO_WIRE, Sides, next_on};
use pq_rules::{Lane, Sight};

/// Notes in the lane, which has nothing yet, what stands behind the start on a wire of its gate, and what was looked at, beside what is
/// noted already.
#[tactic(auto, using(crate::proofs::LaneAlike::any_alike))]
pub fn lane_on(
    gates: &[Gate],
    next: &[Sides],
    start: u32,
    wire: u32,
    lane: &mut Lane,
    looked: &mut Looked,
)
    requires linked { AreLinkedSlots gates.now next.now }
    requires start { start < length gates.now }
    requires uses { Touches (gate_at gates.now start) wire }
    requires empty { lane.old ≡ no_lane }
    ensures more { LooksAtMore looked.old looked.new }
    ensures lane { IsLaneAlike gates.now wire start looked.new lane.new }
{
    if wire == NO_WIRE {
        *lane = Lane::any();
        return;
    }
    let own = Sight::of(gates[start as usize], wire);
    let mut place = next_on(gates, next, start, wire);
    'walk: while (place as usize) < gates.len() {
        let sight = see(gates, place, wire);
        if !own.passes(&sight) {
            end_at(gates, next, place, wire, sight, lane, looked);
            return;
        }
        lane.pass(sight);
        place = next_on(gates, next, place, wire);
    }
    end_at(gates, next, place, wire, Sight::nothing(), lane, looked);
}

/// The same on the last wire of the gate.
pub fn lane_on_last(
    gates: &[Gate],
    next: &[Sides],
    start: u32,
    lane: &mut Lane,
    looked: &mut Looked,
)
    requires linked { AreLinkedSlots gates.now next.now }
    requires start { start < length gates.now }
    requires empty { lane.old ≡ no_lane }
    ensures more { LooksAtMore looked.old looked.new }
    ensures lane { IsLaneAlike gates.now (wire_of true (gate_at gates.now start)) start looked.new lane.new }
{
    lane_on(
        gates,
        next,
        start,
        gates[start as usize].last_wire(),
        lane,
        looked,
    );
}

/// The same on its first wire. Where that is its last, nothing is told.
#[tactic(auto, using(crate::proofs::LaneAlike::any_alike))]
pub fn lane_on_first(
    gates: &[Gate],
    next: &[Sides],
    start: u32,
    lane: &mut Lane,
    looked: &mut Looked,
)
    requires linked { AreLinkedSlots gates.now next.now }
    requires start { start < length gates.now }
    requires empty { lane.old ≡ no_lane }
    ensures more { LooksAtMore looked.old looked.new }
    ensures lane { IsLaneAlike gates.now (wire_of false (gate_at gates.now start)) start looked.new lane.new }
{
    let gate = gates[start as usize];
    if gate.first_wire() == gate.last_wire() {
        *lane = Lane::any();
        return;
    }
    lane_on(gates, next, start, gate.first_wire(), lane, looked);
}

// The lane ends at the place, where this is seen, and with what is seen behind it.
fn end_at(
    gates: &[Gate],
    next: &[Sides],
    place: u32,
    wire: u32,
    near: Sight,
    lane: &mut Lane,
    looked: &mut Looked,
)
    requires linked { AreLinkedSlots gates.now next.now }
    requires wire { wire ≢ NO_WIRE }
    requires uses { place < length gates.now → Touches (gate_at gates.now place) wire }
    ensures more { LooksAtMore looked.old looked.new }
    ensures ends { IsEndedAt gates.now wire place near looked.new lane.old lane.new }
{
    let far = place_behind(gates, next, place, wire);
    let count = gates.len() as u32;
    looked.look_at(place.min(count));
    looked.look_at(far.min(count));
    looked.mark(wire);
    lane.end(near, see(gates, far, wire));
}
