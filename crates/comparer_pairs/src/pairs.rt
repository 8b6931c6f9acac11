// A golden state and a unit state as one number, and what an input does at such a pair.
ghost use Rattle.std.specs.Prelude.{◌≡◌, ◌<◌};
ghost use Rattle.rules.specs.Sizes.{most_states};
ghost use Rattle.comparer_pairs.specs.Pairs.{pairs, pair_of, golden_of, unit_of, look_at, Pair};
ghost use Rattle.comparer_pairs.specs.Sides.{golden_at, unit_at};

use crate::Sides;
use rules::{GoldenState, Input, MOST_STATES, UnitState};
use walker::{Table, outputs_agree};

// How many states a machine may have.
const STATES: usize = MOST_STATES as usize;

fn golden_of(pair: usize) -> GoldenState
    requires { pair < pairs }
    ensures { result.0 ≡ golden_of pair }
{
    GoldenState::numbered((pair / STATES) as u8)
}

fn unit_of(pair: usize) -> UnitState
    requires { pair < pairs }
    ensures { result.0 ≡ unit_of pair }
{
    UnitState::numbered((pair % STATES) as u8)
}

fn pair_of(golden: GoldenState, unit: UnitState) -> usize
    requires { (golden.0 < most_states) × (unit.0 < most_states) }
    ensures { result ≡ pair_of golden.0 unit.0 }
{
    (golden.number() as usize) * STATES + (unit.number() as usize)
}

// The pair that an input leads to, where golden and unit give it the same output.
pub fn look(sides: &Sides<'_>, pair: usize, input: Input) -> Option<usize>
    requires { (pair < pairs) × Pair sides.now.states sides.now.units pair × (input.0 < sides.now.inputs) }
    ensures { result ≡ look_at (golden_at sides.now) (unit_at sides.now) pair input.0 }
{
    let golden = Table::standing(sides.dossier, sides.table, sides.inputs, sides.states);
    let unit = Table::standing(sides.unit, sides.utable, sides.inputs, sides.units);
    let g = golden_of(pair);
    let u = unit_of(pair);
    if !outputs_agree(&golden, g, &unit, u, input) {
        return None;
    }
    let next = golden.next(g, input);
    let unext = unit.next(u, input);
    Some(pair_of(next, unext))
}
