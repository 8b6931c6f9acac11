// Words walked through tables: where a word leads, and where two answers to it first differ.
ghost use Rattle.std.specs.Prelude.{◌≡◌, ◌<◌, eqb};
ghost use Rattle.rules.specs.Words.{same};
ghost use Rattle.rules.specs.Machines.{after, answer, answer_from};
ghost use Rattle.reader.specs.Places.{word_at, WordAt};
ghost use Rattle.walker.specs.Machines.{machine_in};
ghost use Rattle.walker.specs.Walks.{differ_at};

use crate::inputs::{input_at, word_length};
use crate::table::{State, Table};
use rules::{GoldenState, Input, UnitState};

// The state that the word at a place of a file leads to.
pub fn state_after<S: State>(table: &Table<'_, S>, start: S, words: &[u8], word: usize) -> S
    requires start_lt_states { S.at start < table.now.states }
    requires word_at { WordAt words.now word table.now.inputs }
    ensures { (S.at result ≡ after (machine_in table.now) (S.at start) (word_at words.now word)) × (S.at result < table.now.states) }
{
    let mut state = start;
    for step in 0..word_length(words, word) {
        state = table.next(state, input_at(words, word, table.inputs, step));
    }
    state
}

// Whether two machines give the same output to an input.
pub fn outputs_agree<'a, S: State, T: State>(
    one: &Table<'a, S>,
    p: S,
    other: &Table<'a, T>,
    q: T,
    input: Input,
) -> bool
    requires p_lt_states { (S.at p < one.now.states) × (T.at q < other.now.states) }
    requires input_lt_inputs { (input.0 < one.now.inputs) × (input.0 < other.now.inputs) }
    ensures { result ≡ eqb ((machine_in one.now).output (S.at p) input.0) ((machine_in other.now).output (T.at q) input.0) }
{
    one.output(p, input) == other.output(q, input)
}

// The first step at which two machines, from a state each, answer the word at a place of a file differently.
pub fn difference<'a, S: State, T: State>(
    one: &Table<'a, S>,
    p: S,
    other: &Table<'a, T>,
    q: T,
    words: &[u8],
    word: usize,
) -> Option<usize>
    requires p_lt_states { (S.at p < one.now.states) × (T.at q < other.now.states) }
    requires word_at { WordAt words.now word one.now.inputs }
    requires inputs_same { one.now.inputs ≡ other.now.inputs }
    ensures { result ≡ differ_at (answer_from (machine_in one.now) (S.at p) (word_at words.now word)) (answer_from (machine_in other.now) (T.at q) (word_at words.now word)) }
{
    let mut g = p;
    let mut u = q;
    for step in 0..word_length(words, word) {
        let input = input_at(words, word, one.inputs, step);
        if !outputs_agree(one, g, other, u, input) {
            return Some(step);
        }
        g = one.next(g, input);
        u = other.next(u, input);
    }
    None
}

// Whether two states of a machine answer the word at a place of a file alike.
pub fn answer_alike<S: State>(table: &Table<'_, S>, p: S, q: S, words: &[u8], word: usize) -> bool
    requires p_lt_states { (S.at p < table.now.states) × (S.at q < table.now.states) }
    requires word_at { WordAt words.now word table.now.inputs }
    ensures { result ≡ same (answer_from (machine_in table.now) (S.at p) (word_at words.now word)) (answer_from (machine_in table.now) (S.at q) (word_at words.now word)) }
{
    difference(table, p, table, q, words, word).is_none()
}

// The first step at which golden and unit, both after reset, answer the word at a place of a file differently.
pub fn unit_difference<'a>(
    golden: &Table<'a, GoldenState>,
    unit: &Table<'a, UnitState>,
    words: &[u8],
    word: usize,
) -> Option<usize>
    requires word_at { WordAt words.now word golden.now.inputs }
    requires inputs_same { golden.now.inputs ≡ unit.now.inputs }
    ensures { result ≡ differ_at (answer (machine_in golden.now) (word_at words.now word)) (answer (machine_in unit.now) (word_at words.now word)) }
{
    difference(
        golden,
        GoldenState::numbered(0),
        unit,
        UnitState::numbered(0),
        words,
        word,
    )
}
