// The table of distances, an entry for each two states. The distance of p and q stands at p * 64 + q and at q * 64 + p, so that the next
// states of two states are looked up as they come.
ghost use Rattle.std.specs.Prelude.{◌≡◌, ◌<◌};
ghost use Rattle.rules.specs.Sizes.{most_states};
ghost use Rattle.finder_distances.specs.Marks.{places, place_of, unmarked, mark_of, with_mark, MarkTable};

use numbers::wide;
use rules::{GoldenState, MOST_STATES};

const STATES: usize = MOST_STATES as usize;

// A function of its own, so that no goal of another function writes out 4,096 zeros.
pub fn no_distances() -> [u8; 4096]
    ensures { result ≡ unmarked }
{
    [0u8; 4096]
}

fn place_of(p: GoldenState, q: GoldenState) -> usize
    requires { (p.0 < most_states) × (q.0 < most_states) }
    ensures { (result ≡ place_of p.0 q.0) × (result < places) }
{
    wide(p.number()) * STATES + wide(q.number())
}

pub fn distance_at(distances: &[u8], p: GoldenState, q: GoldenState) -> u8
    requires mark_table { MarkTable distances.now }
    requires p_lt_most_states { (p.0 < most_states) × (q.0 < most_states) }
    ensures { result ≡ mark_of distances.now p.0 q.0 }
{
    let place = place_of(p, q);
    distances[place]
}

// Sets the distance of two states, both ways round.
pub fn set_distance(distances: &mut [u8], p: GoldenState, q: GoldenState, distance: u8)
    requires mark_table { MarkTable distances.old }
    requires p_lt_most_states { (p.0 < most_states) × (q.0 < most_states) }
    ensures { distances.new ≡ with_mark distances.old p.0 q.0 distance }
{
    let place = place_of(p, q);
    let mirrored = place_of(q, p);
    distances[place] = distance;
    distances[mirrored] = distance;
}
