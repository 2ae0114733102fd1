//! A call of the house as a value, so that a turn is written once for all of them.
ghost use Rattle.std.specs.Prelude.{◌≡◌, ◌<◌, ◌≤◌, ◌+◌, ◌^◌, ◌++◌, ◌∷◌, [], ℕ, List, length, vec_len, vec_capacity};
ghost use Rattle.house_model.specs.States.{State};
ghost use Rattle.house_model.specs.Histories.{StandsFor, Turn, line_of};
ghost use Rattle.house_core.specs.Houses.{HouseRecord, held};
ghost use Rattle.hall.specs.Turns.{text_in};

use crate::entry::HouseTurn;
use ghost_log::Tells;
use house_core::House;
use mark_sets::SharedMarks;
use std::snapshot::Snapshot;

/// One call of the house.
pub(crate) trait Call {
    type Answer;

    /// The turn that it makes at a line, from the house before it and its answer.
    ghost turn: { Self → ℕ → HouseRecord → Self.Answer → Turn };

    /// What it asks of its arguments.
    ghost fits: { Self → Type 0 };

    /// How many bytes it may append.
    ghost room: { Self → ℕ };

    fn make(&self, house: &mut House, w: u32, out: &mut Vec<u8>) -> Self::Answer
        requires fits { fits self.now }
        requires room { vec_len out.old + room self.now ≤ vec_capacity out.old }
        requires line { w < length house.old.table.lines }
        requires turns { house.old.turns < 2 ^ 63 + 2 ^ 62 }
        ensures history { (o : State) (h : List Turn) → StandsFor o h (held house.old)
            → StandsFor o (h ++ turn self.now w house.old result ∷ []) (held house.new) }
        ensures text { out.new.items ≡ out.old.items ++ text_in (turn self.now w house.old result).outcome }
        ensures capacity { vec_capacity out.old ≤ vec_capacity out.new }
        ensures line { line_of (turn self.now w house.old result).event ≡ w };
}

/// Notes the lines that were stirred.
fn note_stirred(house: &mut House, stirred: &SharedMarks)
    ensures { house.new ≡ house.old }
{
    for _ in 0..house.workers() {
        let Some(lines) = house.next_stirred() else {
            return;
        };
        stirred.add_word(lines);
    }
}

/// Makes a call, and notes the lines that it stirred.
pub(crate) fn make_noted<C: Call>(
    call: &C,
    house: &mut House,
    w: u32,
    out: &mut Vec<u8>,
    stirred: &SharedMarks,
) -> C::Answer
    requires fits { C.fits call.now }
    requires room { vec_len out.old + C.room call.now ≤ vec_capacity out.old }
    requires line { w < length house.old.table.lines }
    requires turns { house.old.turns < 2 ^ 63 + 2 ^ 62 }
    ensures history { (o : State) (h : List Turn) → StandsFor o h (held house.old)
        → StandsFor o (h ++ C.turn call.now w house.old result ∷ []) (held house.new) }
    ensures text { out.new.items ≡ out.old.items ++ text_in (C.turn call.now w house.old result).outcome }
    ensures capacity { vec_capacity out.old ≤ vec_capacity out.new }
    ensures line { line_of (C.turn call.now w house.old result).event ≡ w }
{
    let answer = call.make(house, w, out);
    note_stirred(house, stirred);
    answer
}

/// A call that was made, with what it was made on.
#[derive(Drop)]
pub(crate) struct Made<C: Call> {
    pub(crate) call: Snapshot<C>,
    pub(crate) line: u32,
    pub(crate) before: Snapshot<House>,
    pub(crate) answer: Snapshot<C::Answer>,
}

impl<C: Call> Tells<HouseTurn> for Made<C> {
    ghost entry = { λ m. C.turn m.call.value m.line m.before.value m.answer.value };
}
