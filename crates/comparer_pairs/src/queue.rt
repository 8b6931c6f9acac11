// The queue of the pairs that have been met. An entry is one number: the entry that it was met from, the input, and the pair. What it
// says is divided out (`specs/Queue.antt`), and the search's laws order steps by it.
ghost use Rattle.std.specs.Prelude.{◌≡◌, ◌<◌, length};
ghost use Rattle.rules.specs.Sizes.{most_inputs};
ghost use Rattle.comparer_pairs.specs.Pairs.{pairs};
ghost use Rattle.comparer_pairs.specs.Queue.{step_of, entry_of, pair_at, parent_at, input_at};

use numbers::wide_entry;
use rules::{Input, MOST_INPUTS};

const INPUTS: usize = MOST_INPUTS as usize;

const PAIRS: usize = 4096;

// Room for every pair.
pub fn no_entries() -> [u32; 4096]
    ensures { 4096 ≡ length result }
{
    [0; 4096]
}

pub fn entry(head: usize, input: Input, pair: usize) -> u32
    requires { (head < pairs) × (input.0 < most_inputs) × (pair < pairs) }
    ensures { result ≡ entry_of (step_of head input.0) pair }
{
    ((head * INPUTS + (input.number() as usize)) * PAIRS + pair) as u32
}

pub fn pair_at(queue: &[u32], place: usize) -> usize
    requires { place < length queue.now }
    ensures { (result ≡ pair_at queue.now place) × (result < pairs) }
{
    wide_entry(queue[place]) % PAIRS
}

pub fn parent_at(queue: &[u32], place: usize) -> usize
    requires { place < length queue.now }
    ensures { result ≡ parent_at queue.now place }
{
    wide_entry(queue[place]) / PAIRS / INPUTS
}

pub fn input_at(queue: &[u32], place: usize) -> Input
    requires { place < length queue.now }
    ensures { result.0 ≡ input_at queue.now place }
{
    Input::numbered((wide_entry(queue[place]) / PAIRS % INPUTS) as u8)
}
