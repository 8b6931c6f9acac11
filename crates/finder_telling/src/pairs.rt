// The lowest two states that no word tells apart (document 02, L1, refusal 18).
ghost use Rattle.std.specs.Prelude.{◌≡◌, ◌≤◌, ◌<◌};
ghost use Rattle.rules.specs.Sizes.{most_states};
ghost use Rattle.finder_distances.specs.Marks.{place_of, MarkTable};
ghost use Rattle.soundness_apart.specs.Separating.{pair_found};
ghost use Rattle.finder_telling.specs.Pairs.{lowest_untold, ToldBefore, RowOf};

use finder_distances::distance_at;
use rules::GoldenState;

// The lowest of them with the first state p.
fn untold_row(distances: &[u8], states: u8, p: GoldenState) -> Option<(GoldenState, GoldenState)>
    requires mark_table { MarkTable distances.now }
    requires p_lt_states { (p.0 < states) × (states ≤ most_states) }
    requires told_before { ToldBefore states distances.now (place_of p.0 0) }
    ensures { RowOf states distances.now p.0 result }
{
    for q in p.number() + 1..states {
        let other = GoldenState::numbered(q);
        if distance_at(distances, p, other) == 0 {
            return Some((p, other));
        }
    }
    None
}

pub fn lowest_untold(distances: &[u8], states: u8) -> Option<(GoldenState, GoldenState)>
    requires mark_table { MarkTable distances.now }
    requires states_le_most_states { states ≤ most_states }
    ensures { result ≡ pair_found (lowest_untold states distances.now) }
{
    for p in 0..states {
        if let Some((one, other)) = untold_row(distances, states, GoldenState::numbered(p)) {
            return Some((one, other));
        }
    }
    None
}
