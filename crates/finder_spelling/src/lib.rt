// The first telling words of all pairs of states, one after the other in a text, each behind its length byte (document 02, L1).
#![tactic(auto)]

ghost use Rattle.std.specs.Prelude.{◌≡◌, ◌+◌, ◌≤◌, ◌<◌, length};
ghost use Rattle.rules.specs.Files.{word_bytes};
ghost use Rattle.rules.specs.Needed.{pairs};
ghost use Rattle.finder_distances.specs.Rounds.{DistancesAt};
ghost use Rattle.finder_telling.specs.Pairs.{AllTold};
ghost use Rattle.finder_telling.specs.Read.{telling_off};
ghost use Rattle.theory.specs.Wrote.{Wrote};
ghost use Rattle.finder_spelling.specs.Spelt.{text_room, row_pairs, spelt_of, SpellsAll, SpeltAt};

use finder_distances::distance_at;
use finder_telling::write_telling;
use finder_unit::GoldenUnit;
use numbers::wide;
use rules::GoldenState;

// Room for the words of all pairs: of 64 states there are 2,016 pairs, whose words have at most 43,680 inputs.
pub fn text_room() -> [u8; 45696]
    ensures { text_room ≡ length result }
{
    [0; 45696]
}

// The word of two states. The answer is the place after it.
fn spell_pair(
    unit: &GoldenUnit<'_>,
    distances: &[u8],
    p: GoldenState,
    q: GoldenState,
    text: &mut [u8],
    at: usize,
) -> usize
    requires distances_at { DistancesAt unit.now.bytes.now unit.now.shape distances.now }
    requires p_lt_states { (p.0 < unit.now.shape.states) × (q.0 < unit.now.shape.states) }
    requires q_in_bounds { at + length (word_bytes (telling_off unit.now.bytes.now unit.now.shape distances.now p.0 q.0)) ≤ length text.old }
    ensures { Wrote text.old at (word_bytes (telling_off unit.now.bytes.now unit.now.shape distances.now p.0 q.0)) text.new result }
{
    text[at] = distance_at(distances, p, q);
    write_telling(unit, distances, p, q, text, at + 1)
}

// The words of a state and each that is above it.
fn spell_row(
    unit: &GoldenUnit<'_>,
    distances: &[u8],
    p: GoldenState,
    text: &mut [u8],
    at: usize,
) -> usize
    requires distances_at { DistancesAt unit.now.bytes.now unit.now.shape distances.now }
    requires p_lt_states { p.0 < unit.now.shape.states }
    requires p_in_bounds { at + length (spelt_of unit.now.bytes.now unit.now.shape distances.now (row_pairs unit.now.shape.states p.0 (p.0 + 1))) ≤ length text.old }
    ensures { Wrote text.old at (spelt_of unit.now.bytes.now unit.now.shape distances.now (row_pairs unit.now.shape.states p.0 (p.0 + 1))) text.new result }
{
    let mut place = at;
    for q in p.number() + 1..unit.shape.states {
        let other = GoldenState::numbered(q);
        place = spell_pair(unit, distances, p, other, text, place);
    }
    place
}

// The words of all pairs. The answer is how many they are.
fn spell_pairs(unit: &GoldenUnit<'_>, distances: &[u8], text: &mut [u8]) -> usize
    requires distances_at { DistancesAt unit.now.bytes.now unit.now.shape distances.now }
    requires states_in_bounds { length (spelt_of unit.now.bytes.now unit.now.shape distances.now (pairs unit.now.shape.states)) ≤ length text.old }
    ensures { SpellsAll unit.now.bytes.now unit.now.shape distances.now text.old text.new result }
{
    let mut place = 0;
    let mut count = 0;
    for p in 0..unit.shape.states {
        place = spell_row(unit, distances, GoldenState::numbered(p), text, place);
        count += wide(unit.shape.states - p - 1);
    }
    count
}

// The words of all pairs; for one state, which is in no pair, the empty word. The answer is how many they are.
pub fn spell_words(unit: &GoldenUnit<'_>, distances: &[u8], text: &mut [u8]) -> usize
    requires distances_at { DistancesAt unit.now.bytes.now unit.now.shape distances.now }
    requires all_told { AllTold unit.now.shape.states distances.now }
    requires text_len { length text.old ≡ text_room }
    ensures { SpeltAt unit.now.bytes.now unit.now.shape distances.now text.new result }
{
    if unit.shape.states == 1 {
        text[0] = 0;
        return 1;
    }
    spell_pairs(unit, distances, text)
}
