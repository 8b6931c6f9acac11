// Words, each behind the byte that says its length.
ghost use Rattle.std.specs.Prelude.{◌≡◌, ◌≤◌, ◌<◌, length, get_or};
ghost use Rattle.reader.specs.Places.{word_at, after_word, WordAt};
ghost use Rattle.walker.specs.Walks.{Whole};

use numbers::wide;
use rules::Input;

// How many inputs the word at a place has.
pub fn word_length(bytes: &[u8], word: usize) -> usize
    requires { Whole bytes.now word }
    ensures { (result ≡ length (word_at bytes.now word)) × (result ≡ get_or bytes.now word 0) × (result < 256) }
{
    wide(bytes[word])
}

// The place after the word at a place.
pub fn word_end(bytes: &[u8], word: usize) -> usize
    requires { Whole bytes.now word }
    ensures { (result ≡ after_word bytes.now word) × (result ≤ length bytes.now) }
{
    word + 1 + word_length(bytes, word)
}

// The input that the word at a place has at a step, as a byte.
pub fn input_byte(bytes: &[u8], word: usize, step: usize) -> u8
    requires whole { Whole bytes.now word }
    requires step_in_bounds { step < length (word_at bytes.now word) }
    ensures { result ≡ get_or (word_at bytes.now word) step 0 }
{
    bytes[word + 1 + step]
}

// The input that the word at a place has at a step.
pub fn input_at(bytes: &[u8], word: usize, inputs: u8, step: usize) -> Input
    requires word_at { WordAt bytes.now word inputs }
    requires step_in_bounds { step < length (word_at bytes.now word) }
    ensures { (result.0 ≡ get_or (word_at bytes.now word) step 0) × (result.0 < inputs) }
{
    Input::numbered(input_byte(bytes, word, step))
}

// The inputs of the word at a place.
pub fn word_inputs(bytes: &[u8], word: usize) -> &[u8]
    requires { Whole bytes.now word }
    ensures { result.now ≡ word_at bytes.now word }
{
    &bytes[word + 1..word_end(bytes, word)]
}
