// The search over the states of a unit (document 02, L1). Each state that is met is queued once, behind those that were met before
// it, and its inputs are tried in rising order: so states are met in the order of words, by length and then by inputs, and the word
// by which a state is met is its first access word.
ghost use Rattle.std.specs.Prelude.{◌≡◌, ◌+◌, ◌≤◌, ◌<◌, length, get_or};
ghost use Rattle.rules.specs.Sizes.{most_inputs, most_states};
ghost use Rattle.rules.specs.Files.{UnitData};
ghost use Rattle.rules.specs.Find.{unreachable};
ghost use Rattle.theory.specs.Breadth.{step_of};
ghost use Rattle.soundness_reach.specs.Reached.{state_found};
ghost use Rattle.reader.specs.Standing.{unit_in};
ghost use Rattle.finder_access.specs.Queue.{unplaced};
ghost use Rattle.finder_access.specs.Search.{Searching, PutOf};
ghost use Rattle.finder_access.specs.Reached.{reached_states, Marks, Reaches};

use crate::queue::{entry, state_at};
use finder_unit::GoldenUnit;
use numbers::wide;
use rules::{GoldenState, Input};

// Queues a state, unless it was met before. The answer is how many entries the queue has then.
fn put(
    queue: &mut [u16],
    places: &mut [u8],
    tail: usize,
    state: GoldenState,
    head: usize,
    input: Input,
) -> usize
    requires queue_len { (length queue.old ≡ most_states) × (length places.old ≡ most_states) }
    requires state_lt_most_states { (state.0 < most_states) × (head < most_states) × (input.0 < most_inputs) }
    requires tail_lt_most_states { get_or places.old state.0 0 ≡ 0 → tail < most_states }
    ensures { PutOf (get_or places.old state.0 0) queue.old places.old tail state.0 (step_of head input.0) queue.new places.new result }
{
    let number = wide(state.number());
    if places[number] != 0 {
        return tail;
    }
    queue[tail] = entry(head, input, state);
    places[number] = (tail + 1) as u8;
    tail + 1
}

// Tries one input at an entry of the queue.
fn try_input(
    unit: &GoldenUnit<'_>,
    queue: &mut [u16],
    places: &mut [u8],
    head: usize,
    tail: usize,
    input: Input,
) -> usize
    requires searching { Searching (unit_in unit.now.bytes.now unit.now.shape) queue.old places.old (step_of head input.0) tail }
    requires head_lt_tail { (head < tail) × (input.0 < unit.now.shape.inputs) }
    ensures { Searching (unit_in unit.now.bytes.now unit.now.shape) queue.new places.new (step_of head (input.0 + 1)) result × (head < result) }
{
    let table = unit.table();
    let next = table.next(state_at(queue, head), input);
    put(queue, places, tail, next, head, input)
}

// Tries every input at an entry of the queue, from 0 on.
fn try_entry(
    unit: &GoldenUnit<'_>,
    queue: &mut [u16],
    places: &mut [u8],
    head: usize,
    tail: usize,
) -> usize
    requires searching { Searching (unit_in unit.now.bytes.now unit.now.shape) queue.old places.old (step_of head 0) tail }
    requires head_lt_tail { head < tail }
    ensures { Searching (unit_in unit.now.bytes.now unit.now.shape) queue.new places.new (step_of (head + 1) 0) result × (head < result) }
{
    let mut last = tail;
    for i in 0..unit.shape.inputs {
        let input = Input::numbered(i);
        last = try_input(unit, queue, places, head, last, input);
    }
    last
}

// Meets every state that can be reached; how many there are. The queue starts with the state 0, whose number is 0 and which no step
// leads to.
pub fn reach_states(unit: &GoldenUnit<'_>, queue: &mut [u16], places: &mut [u8]) -> usize
    requires queue_len { (length queue.old ≡ most_states) × (places.old ≡ unplaced) }
    ensures { Reaches (unit_in unit.now.bytes.now unit.now.shape) queue.new places.new × (result ≡ length (reached_states (unit_in unit.now.bytes.now unit.now.shape))) }
{
    queue[0] = 0;
    places[0] = 1;
    let mut head = 0;
    let mut tail = 1;
    // The queue grows while it is gone through.
    while head < tail {
        tail = try_entry(unit, queue, places, head, tail);
        head += 1;
    }
    tail
}

// The lowest state that was not met.
pub fn unreached(places: &[u8], states: u8) -> Option<GoldenState>
    requires { (length places.now ≡ most_states) × (states ≤ most_states) }
    ensures { (u : UnitData) → Marks u places.now → u.states ≡ states → result ≡ state_found (unreachable u) }
{
    for q in 0..states {
        if places[wide(q)] == 0 {
            return Some(GoldenState::numbered(q));
        }
    }
    None
}
