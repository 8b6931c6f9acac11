// The search over pairs for what tells golden and unit apart (document 01, "Compare"). Each pair that is met is queued once, behind those that were met before it, and its inputs are tried
// in rising order: so pairs are met in the order of words, by length and then by inputs, and the first input that shows
// different outputs ends the first telling word.
#![tactic(auto)]

ghost use Rattle.std.specs.Prelude.{◌≡◌, false, ◌+◌, ◌≤◌, ◌<◌, length};
ghost use Rattle.rules.specs.Sizes.{most_inputs};
ghost use Rattle.comparer_pairs.specs.Pairs.{pairs};
ghost use Rattle.comparer_pairs.specs.Marks.{met};
ghost use Rattle.comparer_pairs.specs.Queue.{step_of};
ghost use Rattle.comparer_pairs.specs.Sides.{golden_at, unit_at};
ghost use Rattle.comparer_search.specs.Search.{Searched, ProgressOf, FoundOf, PutOf};

use comparer_pairs::{Sides, entry, is_met, look, meet, no_marks, pair_at};
use rules::Input;

// Queues a pair, unless it was met before. The answer is how many entries the queue has then.
fn put(
    marks: &mut [u8; 4096],
    queue: &mut [u32],
    tail: usize,
    pair: usize,
    head: usize,
    input: Input,
) -> usize
    requires queue_len { length queue.old ≡ pairs }
    requires pair_lt_pairs { (pair < pairs) × (head < pairs) × (input.0 < most_inputs) }
    requires tail_lt_pairs { met marks.old pair ≡ false → tail < pairs }
    ensures { PutOf (met marks.old pair) marks.old queue.old tail pair (step_of head input.0) marks.new queue.new result }
{
    if is_met(marks, pair) {
        return tail;
    }
    meet(marks, pair);
    queue[tail] = entry(head, input, pair);
    tail + 1
}

// Tries one input at an entry of the queue: breaks off where it tells golden and unit apart, and else goes on with as many entries
// as the queue has then.
fn try_input(
    sides: &Sides<'_>,
    marks: &mut [u8; 4096],
    queue: &mut [u32],
    head: usize,
    tail: usize,
    input: Input,
) -> Result<usize, Input>
    requires searched { Searched sides.now.inputs (golden_at sides.now) (unit_at sides.now) marks.old queue.old (step_of head input.0) tail }
    requires head_lt_tail { (head < tail) × (tail ≤ pairs) × (input.0 < sides.now.inputs) }
    ensures { ProgressOf sides.now.inputs (golden_at sides.now) (unit_at sides.now) marks.new queue.new head (step_of head (input.0 + 1)) result }
{
    match look(sides, pair_at(queue, head), input) {
        None => Err(input),
        Some(pair) => Ok(put(marks, queue, tail, pair, head, input)),
    }
}

// Tries every input at an entry of the queue.
fn try_entry(
    sides: &Sides<'_>,
    marks: &mut [u8; 4096],
    queue: &mut [u32],
    head: usize,
    tail: usize,
) -> Result<usize, Input>
    requires searched { Searched sides.now.inputs (golden_at sides.now) (unit_at sides.now) marks.old queue.old (step_of head 0) tail }
    requires head_lt_tail { (head < tail) × (tail ≤ pairs) }
    ensures { ProgressOf sides.now.inputs (golden_at sides.now) (unit_at sides.now) marks.new queue.new head (step_of (head + 1) 0) result }
{
    let mut last = tail;
    for i in 0..sides.inputs {
        last = try_input(sides, marks, queue, head, last, Input::numbered(i))?;
    }
    Ok(last)
}

// The first entry and input that tell golden and unit apart. The queue starts with the pair of the states 0, whose number is 0 and
// which no step leads to.
pub fn search(sides: &Sides<'_>, queue: &mut [u32]) -> Option<(usize, Input)>
    requires queue_len { length queue.old ≡ pairs }
    ensures { FoundOf sides.now.inputs (golden_at sides.now) (unit_at sides.now) queue.new result }
{
    let mut marks = no_marks();
    meet(&mut marks, 0);
    queue[0] = 0;
    let mut head = 0;
    let mut tail = 1;
    // The queue grows while it is gone through.
    while head < tail {
        match try_entry(sides, &mut marks, queue, head, tail) {
            Err(input) => {
                return Some((head, input));
            }
            Ok(end) => {
                tail = end;
            }
        }
        head += 1;
    }
    None
}
