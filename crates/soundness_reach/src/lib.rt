// Whether the cover words have the empty one, and which golden states they reach (document 01, refusals 7 and 8).
#![tactic(auto)]

ghost use Rattle.std.specs.Prelude.{◌≡◌, ℕ, ◌+◌, ◌≤◌, ◌<◌};
ghost use Rattle.rules.specs.Lists.{any, first, numbers};
ghost use Rattle.rules.specs.Machines.{after};
ghost use Rattle.reader.specs.Places.{word_at, words_at, WordAt, WordsAt};
ghost use Rattle.walker.specs.Machines.{machine_in};
ghost use Rattle.soundness_reach.specs.Reached.{unmarked, lit, reaches, lacks, state_found};

use rules::GoldenState;
use walker::{Table, state_after, word_end};

mod words;

pub use words::has_empty_word;

// No marks. A function of its own, so that no goal of another function writes out 64 zeros.
fn blank() -> [u8; 64]
    ensures { result ≡ unmarked }
{
    [0u8; 64]
}

// The state that a word reaches from 0.
fn reached_by(golden: &Table<'_, GoldenState>, word: usize) -> GoldenState
    requires { WordAt golden.now.bytes.now word golden.now.inputs }
    ensures { (result.0 ≡ after (machine_in golden.now) 0 (word_at golden.now.bytes.now word)) × (result.0 < golden.now.states) }
{
    state_after(golden, GoldenState::numbered(0), golden.bytes, word)
}

// A mark for each state that a cover word reaches from 0. The cover stands in the golden's file.
fn reached(golden: &Table<'_, GoldenState>, cover: usize, covers: usize) -> [u8; 64]
    requires states_bound { golden.now.states ≤ 64 }
    requires words_at { WordsAt golden.now.bytes.now cover golden.now.inputs covers }
    ensures { (q : ℕ) → q < golden.now.states → lit result q ≡ any (reaches (machine_in golden.now) q) (words_at golden.now.bytes.now cover covers) }
{
    let mut marks = blank();
    let mut word = cover;
    for _ in 0..covers {
        let state = reached_by(golden, word);
        marks[state.number() as usize] = 1;
        word = word_end(golden.bytes, word);
    }
    marks
}

// The lowest state that no cover word reaches.
pub fn unreached(
    golden: &Table<'_, GoldenState>,
    cover: usize,
    covers: usize,
) -> Option<GoldenState>
    requires states_bound { golden.now.states ≤ 64 }
    requires words_at { WordsAt golden.now.bytes.now cover golden.now.inputs covers }
    ensures { result ≡ state_found (first (lacks (machine_in golden.now) (words_at golden.now.bytes.now cover covers)) (numbers golden.now.states)) }
{
    let marks = reached(golden, cover, covers);
    for q in 0..golden.states {
        if marks[q as usize] == 0 {
            return Some(GoldenState::numbered(q));
        }
    }
    None
}
