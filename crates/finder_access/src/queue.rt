// The queue of the states that have been met, and the places of the states in it. An entry is one number: the entry
// that it was met from, the input, and the state. What it says is divided out (`specs/Queue.antt`), and the search's laws order steps by it.
ghost use Rattle.std.specs.Prelude.{◌≡◌, ◌-◌, ◌<◌, length, get_or};
ghost use Rattle.rules.specs.Sizes.{most_inputs, most_states};
ghost use Rattle.theory.specs.Breadth.{step_of};
ghost use Rattle.finder_access.specs.Queue.{entry_of, state_at, parent_at, input_at, unplaced};

use numbers::{wide, wide_link};
use rules::{GoldenState, Input, MOST_INPUTS, MOST_STATES};

const INPUTS: usize = MOST_INPUTS as usize;

const STATES: usize = MOST_STATES as usize;

// Room for every state.
pub fn no_entries() -> [u16; 64]
    ensures { 64 ≡ length result }
{
    [0; 64]
}

// No state has been met.
pub fn no_places() -> [u8; 64]
    ensures { result ≡ unplaced }
{
    [0u8; 64]
}

pub fn entry(head: usize, input: Input, state: GoldenState) -> u16
    requires { (head < most_states) × (input.0 < most_inputs) × (state.0 < most_states) }
    ensures { result ≡ entry_of (step_of head input.0) state.0 }
{
    ((head * INPUTS + wide(input.number())) * STATES + wide(state.number())) as u16
}

pub fn state_at(queue: &[u16], place: usize) -> GoldenState
    requires { place < length queue.now }
    ensures { result.0 ≡ state_at queue.now place }
{
    GoldenState::numbered((wide_link(queue[place]) % STATES) as u8)
}

pub fn parent_at(queue: &[u16], place: usize) -> usize
    requires { place < length queue.now }
    ensures { result ≡ parent_at queue.now place }
{
    wide_link(queue[place]) / STATES / INPUTS
}

pub fn input_at(queue: &[u16], place: usize) -> Input
    requires { place < length queue.now }
    ensures { result.0 ≡ input_at queue.now place }
{
    Input::numbered((wide_link(queue[place]) / STATES % INPUTS) as u8)
}

// The place of a state in the queue; for a state that was not met, that of the state 0, whose word is empty.
pub fn place_of(places: &[u8], state: GoldenState) -> usize
    requires { state.0 < length places.now }
    ensures { result ≡ get_or places.now state.0 0 - 1 }
{
    wide(places[wide(state.number())]).saturating_sub(1)
}
