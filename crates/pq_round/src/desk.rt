ghost use Rattle.std.specs.Prelude.{◌≡◌, ◌≤◌, [], length, cond, Some, None, IfOk, IfSome};
ghost use Rattle.pq_limits.specs.declared.TheConstants.{MAX_SEGMENT};
ghost use Rattle.pq_round.specs.Results.{IsResultOf, gates_at};
ghost use Rattle.pq_round.specs.Desks.{HasRoomFor, IsSpare};

use pq_array::Cells;
use pq_gate::GateList;
use pq_list::OutOfMemory;
use pq_match::Seg;
use pq_oracle::Worked;
use pq_rules::Rules;
use std::alloc::Global;

/// The room in which one job is worked, beside the worker's segment: it becomes a part of the result.
#[derive(Drop)]
pub struct Desk {
    /// For the copy of the gates that go in.
    pub input: GateList,

    /// For the segment's next gates, where those that it has now are moved into the result.
    pub spare: GateList,
}

impl Desk {
    /// A desk with room for so many gates, at most 2,048, in each list. Its spare list is the one that is left from the job
    /// before, and only where there is none a new one.
    pub fn reserve(alloc: Global, room: u32, left: Option<GateList>) -> Result<Desk, OutOfMemory>
        requires small { room ≤ MAX_SEGMENT }
        requires left { IfSome left (IsSpare room) }
        ensures { IfOk result (HasRoomFor room) }
    {
        let input = GateList::with_room(alloc, room)?;
        let spare = match left {
            Some(spare) => spare,
            None => GateList::with_room(alloc, room)?,
        };
        Ok(Desk { input, spare })
    }

    /// Gives the gates at these places to the oracle, under this ticket, in a segment that is empty before and afterwards.
    /// The spare list is left where nothing was improved. It takes no memory.
    pub fn work<'r>(
        self,
        seg: &mut Seg,
        cells: &Cells,
        places: &[u64],
        rules: &'r Rules,
        ticket: u64,
    ) -> (Worked<'r>, Option<GateList>)
        requires empty { seg.old.items ≡ [] }
        requires fits { length places.now ≤ seg.old.room }
        requires room { HasRoomFor seg.old.room self }
        ensures result { IsResultOf cells.now places.now rules.entry.now ticket result.0 }
        ensures left { result.1 ≡ cond result.0.answer.improved None (Some self.spare) }
        ensures emptied { seg.new.items ≡ [] }
        ensures kept { seg.new.room ≡ seg.old.room }
    {
        let Desk { mut input, spare } = self;
        put_gates(&mut input, cells, places);
        seg.extend(input.as_slice());
        Worked::of_lent(rules, ticket, input, seg, spare)
    }
}

/// Puts the gates at these places into an empty list, in order.
fn put_gates(list: &mut GateList, cells: &Cells, places: &[u64])
    requires empty { list.old.items ≡ [] }
    requires room { length places.now ≤ list.old.room }
    ensures items { list.new.items ≡ gates_at cells.now places.now }
    ensures few { length list.new.items ≤ length places.now }
    ensures room { list.new.room ≡ list.old.room }
{
    for place in places {
        if let Some(gate) = cells.gate_at(*place) {
            list.push_kept(gate);
        }
    }
}
