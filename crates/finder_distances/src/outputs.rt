// Whether two states give different outputs to an input.
ghost use Rattle.std.specs.Prelude.{◌≡◌, ◌<◌};
ghost use Rattle.finder_distances.specs.Leads.{machine_of_unit, differs};

use finder_unit::GoldenUnit;
use rules::{GoldenState, Input};

pub fn outputs_differ(unit: &GoldenUnit<'_>, p: GoldenState, q: GoldenState, input: Input) -> bool
    requires p_lt_states { (p.0 < unit.now.shape.states) × (q.0 < unit.now.shape.states) × (input.0 < unit.now.shape.inputs) }
    ensures { result ≡ differs (machine_of_unit unit.now.bytes.now unit.now.shape) p.0 q.0 input.0 }
{
    let table = unit.table();
    table.output(p, input) != table.output(q, input)
}
