// Whether the separating words tell every two golden states apart (document 01, refusal 10). Words that told some pair apart are tried first: each of
// them splits the states further, so all words are gone through at most as often as there are states.
#![tactic(auto)]

ghost use Rattle.std.specs.Prelude.{◌≡◌, ℕ, ◌+◌, ◌-◌, ◌<◌, List, true, false, length};
ghost use Rattle.rules.specs.Lists.{first, numbers_from};
ghost use Rattle.rules.specs.Needed.{pairs};
ghost use Rattle.reader.specs.declared.DossierShape.{DossierShape};
ghost use Rattle.reader.specs.Places.{word_at, TableAt, WordAt};
ghost use Rattle.soundness_reach.specs.Reached.{state_found};
ghost use Rattle.soundness_apart.specs.Separating.{golden_at, separators_at, alike_on, alike, SeparatingAt, SeparatorAt, TellingIs, KnownAt, pair_found};

use reader::DossierShape;
use rules::GoldenState;
use walker::{Table, answer_alike, word_end};

// Whether two states of the golden answer the word at a place alike.
fn answers_alike(bytes: &[u8], x: DossierShape, p: GoldenState, q: GoldenState, word: usize) -> bool
    requires table { TableAt bytes.now x.table x.inputs x.states }
    requires p_lt_states { (p.0 < x.states) × (q.0 < x.states) }
    requires word_at { WordAt bytes.now word x.inputs }
    ensures { result ≡ alike_on (golden_at bytes.now x) p.0 q.0 (word_at bytes.now word) }
{
    let golden = Table::standing(bytes, x.table, x.inputs, x.states);
    answer_alike(&golden, p, q, bytes, word)
}

// Goes through all separating words for one that tells two states apart, and answers its place.
fn find_telling(bytes: &[u8], x: DossierShape, p: GoldenState, q: GoldenState) -> Option<usize>
    requires separating_at { SeparatingAt bytes.now x }
    requires p_lt_states { (p.0 < x.states) × (q.0 < x.states) }
    ensures { TellingIs bytes.now x p.0 q.0 result }
{
    let mut word = x.separating;
    for _ in 0..x.separators {
        if !answers_alike(bytes, x, p, q, word) {
            return Some(word);
        }
        word = word_end(bytes, word);
    }
    None
}

// Places of separating words that told some pair apart: the first `count`.
#[derive(Clone, Copy)]
pub struct Known {
    pub places: [usize; 64],
    pub count: usize,
}

fn no_places() -> [usize; 64]
    ensures { 64 ≡ length result }
{
    [0; 64]
}

fn remember(known: &mut Known, place: usize)
    ensures { (s : List ℕ) (x : DossierShape) → KnownAt s x known.old → SeparatorAt s x place → KnownAt s x known.new }
{
    if known.count < 64 {
        known.places[known.count] = place;
        known.count += 1;
    }
}

// Whether a word that told some pair apart tells these two states apart.
fn told_by_known(
    bytes: &[u8],
    x: DossierShape,
    p: GoldenState,
    q: GoldenState,
    known: &Known,
) -> bool
    requires separating_at { SeparatingAt bytes.now x }
    requires p_lt_states { (p.0 < x.states) × (q.0 < x.states) }
    requires known_at { KnownAt bytes.now x known.now }
    ensures { result ≡ true → alike (golden_at bytes.now x) (separators_at bytes.now x) p.0 q.0 ≡ false }
{
    for j in 0..known.count {
        if !answers_alike(bytes, x, p, q, known.places[j]) {
            return true;
        }
    }
    false
}

// Whether two states answer all separating words alike. A word that tells them apart is known afterwards.
fn see_pair(
    bytes: &[u8],
    x: DossierShape,
    p: GoldenState,
    q: GoldenState,
    known: &mut Known,
) -> bool
    requires separating_at { SeparatingAt bytes.now x }
    requires p_lt_states { (p.0 < x.states) × (q.0 < x.states) }
    requires known_at { KnownAt bytes.now x known.old }
    ensures { (result ≡ alike (golden_at bytes.now x) (separators_at bytes.now x) p.0 q.0) × KnownAt bytes.now x known.new }
{
    if told_by_known(bytes, x, p, q, known) {
        return false;
    }
    match find_telling(bytes, x, p, q) {
        Some(place) => {
            remember(known, place);
            false
        }
        None => true,
    }
}

// The lowest state above p that answers all separating words as p does.
fn see_row(bytes: &[u8], x: DossierShape, p: GoldenState, known: &mut Known) -> Option<GoldenState>
    requires separating_at { SeparatingAt bytes.now x }
    requires p_lt_states { p.0 < x.states }
    requires known_at { KnownAt bytes.now x known.old }
    ensures { (result ≡ state_found (first (alike (golden_at bytes.now x) (separators_at bytes.now x) p.0) (numbers_from (p.0 + 1) (x.states - (p.0 + 1))))) × KnownAt bytes.now x known.new }
{
    for q in p.number() + 1..x.states {
        let other = GoldenState::numbered(q);
        if see_pair(bytes, x, p, other, known) {
            return Some(other);
        }
    }
    None
}

// The lowest two states that answer all separating words alike.
pub fn unseparated(bytes: &[u8], x: DossierShape) -> Option<(GoldenState, GoldenState)>
    requires { SeparatingAt bytes.now x }
    ensures { result ≡ pair_found (first (λ (p, q). alike (golden_at bytes.now x) (separators_at bytes.now x) p q) (pairs x.states)) }
{
    let mut known = Known {
        places: no_places(),
        count: 0,
    };
    for p in 0..x.states {
        let state = GoldenState::numbered(p);
        if let Some(other) = see_row(bytes, x, state, &mut known) {
            return Some((state, other));
        }
    }
    None
}
