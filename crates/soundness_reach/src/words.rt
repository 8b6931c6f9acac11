// What is asked of a section of words.
ghost use Rattle.std.specs.Prelude.{◌≡◌, []};
ghost use Rattle.rules.specs.Words.{is_in};
ghost use Rattle.reader.specs.Places.{words_at, WordsAt};

use walker::{word_end, word_length};

// Whether one of the words from a place on is the empty word.
pub fn has_empty_word(bytes: &[u8], place: usize, inputs: u8, count: usize) -> bool
    requires { WordsAt bytes.now place inputs count }
    ensures { result ≡ is_in [] (words_at bytes.now place count) }
{
    let mut word = place;
    for _ in 0..count {
        if word_length(bytes, word) == 0 {
            return true;
        }
        word = word_end(bytes, word);
    }
    false
}
