// The first telling word of two states, read off the table of distances: its first input is the lowest that leads to two states that are one nearer, and
// the rest is their first telling word. The last input is the lowest to which the two states give different outputs.
ghost use Rattle.std.specs.Prelude.{◌≡◌, ◌+◌, ◌≤◌, ◌<◌, length};
ghost use Rattle.finder_distances.specs.Marks.{mark_of};
ghost use Rattle.finder_distances.specs.Leads.{machine_of_unit};
ghost use Rattle.finder_distances.specs.Rounds.{DistancesAt};
ghost use Rattle.finder_telling.specs.Read.{next_input, telling_off};
ghost use Rattle.theory.specs.Wrote.{Wrote};

use finder_distances::{distance_at, find_lead};
use finder_unit::GoldenUnit;
use numbers::wide;
use rules::{GoldenState, Input};

// The input that the first telling word of two states begins with, where `left` inputs follow it.
fn telling_input(
    unit: &GoldenUnit<'_>,
    distances: &[u8],
    p: GoldenState,
    q: GoldenState,
    left: u8,
) -> Input
    requires distances_at { DistancesAt unit.now.bytes.now unit.now.shape distances.now }
    requires p_lt_states { (p.0 < unit.now.shape.states) × (q.0 < unit.now.shape.states) × (mark_of distances.now p.0 q.0 ≡ left + 1) }
    ensures { (result.0 ≡ next_input unit.now.shape.inputs (machine_of_unit unit.now.bytes.now unit.now.shape) distances.now left p.0 q.0) × (result.0 < unit.now.shape.inputs) }
{
    // Two states that have a distance have an input that leads on.
    find_lead(unit, distances, p, q, left).unwrap()
}

// Writes the inputs of the first telling word of two states from the place `at` on. The answer is the place after them.
pub fn write_telling(
    unit: &GoldenUnit<'_>,
    distances: &[u8],
    p: GoldenState,
    q: GoldenState,
    out: &mut [u8],
    at: usize,
) -> usize
    requires distances_at { DistancesAt unit.now.bytes.now unit.now.shape distances.now }
    requires p_lt_states { (p.0 < unit.now.shape.states) × (q.0 < unit.now.shape.states) }
    requires q_in_bounds { at + mark_of distances.now p.0 q.0 ≤ length out.old }
    ensures { Wrote out.old at (telling_off unit.now.bytes.now unit.now.shape distances.now p.0 q.0) out.new result }
{
    let table = unit.table();
    let far = distance_at(distances, p, q);
    let mut one = p;
    let mut other = q;
    for i in 0..far {
        let left = far - i - 1;
        let input = telling_input(unit, distances, one, other, left);
        out[at + wide(i)] = input.number();
        one = table.next(one, input);
        other = table.next(other, input);
    }
    at + wide(far)
}
