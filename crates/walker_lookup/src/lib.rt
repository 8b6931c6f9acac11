// Where a test stands in its dossier, what golden and unit output at a step of it, and whether another word is the same.
#![tactic(auto)]

ghost use Rattle.std.specs.Prelude.{◌≡◌, ◌<◌, length, get_or};
ghost use Rattle.rules.specs.Words.{same};
ghost use Rattle.rules.specs.Machines.{answer};
ghost use Rattle.theory.specs.Lists.{At};
ghost use Rattle.reader.specs.Places.{word_at, words_at, WordAt, WordsAt};
ghost use Rattle.walker.specs.Walks.{Whole};
ghost use Rattle.walker.specs.Machines.{machine_in};

use rules::Output;
use walker::{State, Table, input_at, word_inputs, word_length};

// The place of the word of a number among those that stand from `first` on.
pub fn word_place(bytes: &[u8], first: usize, inputs: u8, count: usize, number: usize) -> usize
    requires words_at { WordsAt bytes.now first inputs count }
    requires number_lt_count { number < count }
    ensures { WordAt bytes.now result inputs × At (words_at bytes.now first count) number (word_at bytes.now result) }
{
    let mut word = first;
    for _ in 0..number {
        word = word + 1 + word_length(bytes, word);
    }
    word
}

// The output of a machine at a step of its answer to the word at a place of a file.
pub fn output_at<S: State>(table: &Table<'_, S>, words: &[u8], word: usize, step: usize) -> Output
    requires word_at { WordAt words.now word table.now.inputs }
    requires step_in_bounds { step < length (word_at words.now word) }
    ensures { result.0 ≡ get_or (answer (machine_in table.now) (word_at words.now word)) step 0 }
{
    let mut state = S::numbered(0);
    for i in 0..step {
        state = table.next(state, input_at(words, word, table.inputs, i));
    }
    table.output(state, input_at(words, word, table.inputs, step))
}

// Whether two words are the same.
pub fn same_word(one: &[u8], p: usize, other: &[u8], q: usize) -> bool
    requires whole { Whole one.now p }
    requires whole_2 { Whole other.now q }
    ensures { result ≡ same (word_at one.now p) (word_at other.now q) }
{
    word_inputs(one, p) == word_inputs(other, q)
}
