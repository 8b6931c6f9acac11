// Rounds over all pairs of states. The round after `rounds` others gives the distance rounds + 1 to each pair that has none and that a word of so
// many inputs tells apart. An entry of this round is not one that the round looks for, so that the table is changed in place.
ghost use Rattle.std.specs.Prelude.{◌≡◌, ◌+◌, ◌<◌, false};
ghost use Rattle.finder_distances.specs.Marks.{place_of, unmarked};
ghost use Rattle.finder_distances.specs.Leads.{machine_of_unit};
ghost use Rattle.finder_distances.specs.Rounds.{Midway, DistancesAt};

use crate::leads::find_lead;
use crate::marks::{distance_at, set_distance};
use finder_unit::GoldenUnit;
use rules::GoldenState;

// One pair in a round. The answer is whether the round has changed anything so far.
fn mark_pair(
    unit: &GoldenUnit<'_>,
    distances: &mut [u8],
    p: GoldenState,
    q: GoldenState,
    rounds: u8,
    changed: bool,
) -> bool
    requires p_lt_q { (p.0 < q.0) × (q.0 < unit.now.shape.states) × (rounds < unit.now.shape.states) }
    requires midway { Midway unit.now.shape.inputs (machine_of_unit unit.now.bytes.now unit.now.shape) rounds (place_of p.0 q.0) changed distances.old }
    ensures { Midway unit.now.shape.inputs (machine_of_unit unit.now.bytes.now unit.now.shape) rounds (place_of p.0 (q.0 + 1)) result distances.new }
{
    if distance_at(distances, p, q) != 0 {
        return changed;
    }
    match find_lead(unit, distances, p, q, rounds) {
        Some(_) => {
            set_distance(distances, p, q, rounds + 1);
            true
        }
        None => changed,
    }
}

// The pairs of a state and those above it.
fn mark_row(
    unit: &GoldenUnit<'_>,
    distances: &mut [u8],
    p: GoldenState,
    rounds: u8,
    already: bool,
) -> bool
    requires p_lt_states { (p.0 < unit.now.shape.states) × (rounds < unit.now.shape.states) }
    requires midway { Midway unit.now.shape.inputs (machine_of_unit unit.now.bytes.now unit.now.shape) rounds (place_of p.0 0) already distances.old }
    ensures { Midway unit.now.shape.inputs (machine_of_unit unit.now.bytes.now unit.now.shape) rounds (place_of (p.0 + 1) 0) result distances.new }
{
    let mut changed = already;
    for q in p.number() + 1..unit.shape.states {
        let other = GoldenState::numbered(q);
        changed = mark_pair(unit, distances, p, other, rounds, changed);
    }
    changed
}

// A whole round.
fn mark_round(unit: &GoldenUnit<'_>, distances: &mut [u8], rounds: u8) -> bool
    requires rounds_lt_states { rounds < unit.now.shape.states }
    requires midway { Midway unit.now.shape.inputs (machine_of_unit unit.now.bytes.now unit.now.shape) rounds 0 false distances.old }
    ensures { Midway unit.now.shape.inputs (machine_of_unit unit.now.bytes.now unit.now.shape) rounds (place_of unit.now.shape.states 0) result distances.new }
{
    let mut changed = false;
    for p in 0..unit.shape.states {
        let state = GoldenState::numbered(p);
        changed = mark_row(unit, distances, state, rounds, changed);
    }
    changed
}

// Rounds until one changes nothing, at most one less than there are states.
pub fn find_distances(unit: &GoldenUnit<'_>, distances: &mut [u8])
    requires distances_value { distances.old ≡ unmarked }
    ensures { DistancesAt unit.now.bytes.now unit.now.shape distances.new }
{
    for rounds in 0..unit.shape.states - 1 {
        if !mark_round(unit, distances, rounds) {
            return;
        }
    }
}
