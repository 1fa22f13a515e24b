ghost use Rattle.std.specs.Prelude.{◌≡◌, ◌≤◌, [], cond, Some, None};
ghost use Rattle.pq_oracle.specs.Ora.{Ora};
ghost use Rattle.pq_oracle.specs.Outcomes.{WorkedView};

use crate::oracle::{Outcome, rewrite_all};
use pq_gate::{Gate, GateList};
use pq_list::{RoomList, crosses_threads};
use pq_match::Seg;
use pq_rules::Rules;
use std::marker::Model;

/// A segment that was worked: its ticket, the gates that went in, and the oracle's answer to them under the
/// rules. That the answer is the oracle's is kept by the type. It has the gates alone, and nothing else of the
/// segment.
#[derive(Drop)]
pub struct Worked<'r> {
    ticket: u64,
    input: GateList,

    // what the oracle left, or None where that is the input
    output: Option<GateList>,
    outcome: Outcome,
    rules: &'r Rules,
}

impl<'r> Model for Worked<'r> {
    ghost use Rattle.pq_oracle.specs.Outcomes.{WorkedView, answer_of, left_of};
    ghost use Rattle.pq_oracle.specs.Ora.{Ora};

    ghost Value = { WorkedView };

    ghost view = { λ a. record { ticket = a.ticket; input = a.input.items; answer = answer_of (left_of a.input a.output) a.outcome; rules = a.rules.now } };

    ghost invariant = { λ a. Ora a.rules.now a.input.items (answer_of (left_of a.input a.output) a.outcome) };
}

impl<'r> Worked<'r> {
    /// Works the segment, whose gates are those of `input`, and lets go what isn't kept of it. It takes no memory.
    pub fn of(rules: &'r Rules, ticket: u64, input: GateList, seg: Seg) -> Worked<'r>
        requires { seg.items ≡ input.items }
        ensures ticket { result.ticket ≡ ticket }
        ensures input { result.input ≡ input.items }
        ensures rules { result.rules ≡ rules.entry.now }
        ensures oracle { Ora result.rules result.input result.answer }
    {
        let mut seg = seg;
        let outcome = rewrite_all(rules, &mut seg);
        Worked {
            ticket,
            input,
            output: Some(seg.into_held()),
            outcome,
            rules,
        }
    }

    /// Works the segment, whose gates are those of `input`, and leaves it empty for the next ones. The output of an improved
    /// segment is moved out of it, and the empty list `spare`, which has at least the segment's room, takes its place; where
    /// nothing was improved, `spare` is handed back. It takes no memory.
    #[inline(never)]
    pub fn of_lent(
        rules: &'r Rules,
        ticket: u64,
        input: GateList,
        seg: &mut Seg,
        spare: GateList,
    ) -> (Worked<'r>, Option<GateList>)
        requires gates { seg.old.items ≡ input.items }
        requires empty { spare.items ≡ [] }
        requires enough { seg.old.room ≤ spare.room }
        ensures ticket { result.0.ticket ≡ ticket }
        ensures input { result.0.input ≡ input.items }
        ensures rules { result.0.rules ≡ rules.entry.now }
        ensures oracle { Ora result.0.rules result.0.input result.0.answer }
        ensures spare { result.1 ≡ cond result.0.answer.improved None (Some spare) }
        ensures emptied { seg.new.items ≡ [] }
        ensures room { seg.new.room ≡ seg.old.room }
    {
        let outcome = rewrite_all(rules, seg);
        let (output, spare) = if outcome.improved {
            (Some(seg.take_held(spare)), None)
        } else {
            seg.clear();
            (None, Some(spare))
        };
        let worked = Worked {
            ticket,
            input,
            output,
            outcome,
            rules,
        };
        (worked, spare)
    }

    /// The number under which the segment was handed out.
    pub fn ticket(&self) -> u64
        ensures { result ≡ self.now.ticket }
    {
        self.ticket
    }

    /// The gates that went in.
    pub fn input(&self) -> &[Gate]
        ensures { result.now ≡ self.now.input }
    {
        self.input.as_slice()
    }

    /// The gates that the oracle left.
    pub fn output(&self) -> &[Gate]
        ensures output { result.now ≡ self.now.answer.gates }
        ensures oracle { Ora self.now.rules self.now.input self.now.answer }
    {
        self.output.as_ref().unwrap_or(&self.input).as_slice()
    }

    /// Whether there was a redex.
    pub fn improved(&self) -> bool
        ensures improved { result ≡ self.now.answer.improved }
        ensures oracle { Ora self.now.rules self.now.input self.now.answer }
    {
        self.outcome.improved
    }

    /// By how many eighths of a whole turn the input turns more than the output, from 0 to 7.
    pub fn phase(&self) -> u8
        ensures phase { result ≡ self.now.answer.phase }
        ensures oracle { Ora self.now.rules self.now.input self.now.answer }
    {
        self.outcome.phase
    }
}

/// A list of segments that were worked.
pub type WorkedList<'r> = RoomList<Worked<'r>>;

// Worked segments and their lists cross threads.
fn worked_segments_cross_threads() {
    crosses_threads::<Worked<'_>>();
    crosses_threads::<WorkedList<'_>>();
}
