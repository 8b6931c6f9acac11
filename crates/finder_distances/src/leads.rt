// The lowest input by which a telling word of two states can go on: one that they give different outputs to, or one that leads to two states
// of a given distance.
ghost use Rattle.std.specs.Prelude.{◌≡◌, ◌<◌, ℕ, Bool};
ghost use Rattle.rules.specs.declared.Input.{Input};
ghost use Rattle.rules.specs.Lists.{first, numbers};
ghost use Rattle.finder_distances.specs.Marks.{mark_of, MarkTable};
ghost use Rattle.finder_distances.specs.Leads.{machine_of_unit, nears, leads, lead_of, Tests};

use crate::marks::distance_at;
use crate::outputs::outputs_differ;
use finder_unit::GoldenUnit;
use rules::{GoldenState, Input};

// The distance of the two states that an input leads to from two states.
fn next_distance(
    unit: &GoldenUnit<'_>,
    distances: &[u8],
    p: GoldenState,
    q: GoldenState,
    input: Input,
) -> u8
    requires mark_table { MarkTable distances.now }
    requires p_lt_states { (p.0 < unit.now.shape.states) × (q.0 < unit.now.shape.states) × (input.0 < unit.now.shape.inputs) }
    ensures { result ≡ mark_of distances.now ((machine_of_unit unit.now.bytes.now unit.now.shape).next p.0 input.0) ((machine_of_unit unit.now.bytes.now unit.now.shape).next q.0 input.0) }
{
    let table = unit.table();
    distance_at(distances, table.next(p, input), table.next(q, input))
}

// Whether an input leads from two states to two of a given distance.
fn comes_near(
    unit: &GoldenUnit<'_>,
    distances: &[u8],
    p: GoldenState,
    q: GoldenState,
    distance: u8,
    input: Input,
) -> bool
    requires mark_table { MarkTable distances.now }
    requires p_lt_states { (p.0 < unit.now.shape.states) × (q.0 < unit.now.shape.states) × (input.0 < unit.now.shape.inputs) }
    ensures { result ≡ nears (machine_of_unit unit.now.bytes.now unit.now.shape) distances.now distance p.0 q.0 input.0 }
{
    next_distance(unit, distances, p, q, input) == distance
}

// The lowest input that passes a test.
fn lowest_input<F: Fn(Input) -> bool>(inputs: u8, test: F) -> Option<Input>
    requires { (input : Input) → input.0 < inputs → F.pre test input }
    ensures { (rule : ℕ → Bool) → Tests (F.post test) inputs rule → result ≡ lead_of (first rule (numbers inputs)) }
{
    for i in 0..inputs {
        let input = Input::numbered(i);
        if test(input) {
            return Some(input);
        }
    }
    None
}

// The lowest input behind which `left` inputs more tell two states apart: none more where their outputs differ.
pub fn find_lead(
    unit: &GoldenUnit<'_>,
    distances: &[u8],
    p: GoldenState,
    q: GoldenState,
    left: u8,
) -> Option<Input>
    requires mark_table { MarkTable distances.now }
    requires p_lt_states { (p.0 < unit.now.shape.states) × (q.0 < unit.now.shape.states) }
    ensures { result ≡ lead_of (first (leads (machine_of_unit unit.now.bytes.now unit.now.shape) distances.now left p.0 q.0) (numbers unit.now.shape.inputs)) }
{
    if left == 0 {
        return lowest_input(unit.shape.inputs, |input| outputs_differ(unit, p, q, input));
    }
    lowest_input(
        unit.shape.inputs,
        |input| comes_near(unit, distances, p, q, left, input),
    )
}
