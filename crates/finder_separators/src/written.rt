// The words at the places, measured and written, each behind its length byte.
ghost use Rattle.std.specs.Prelude.{◌≡◌, ◌+◌, ◌≤◌, length};
ghost use mathlib.Core.List.{flat_map};
ghost use Rattle.rules.specs.Files.{word_bytes};
ghost use Rattle.reader.specs.Places.{word_at};
ghost use Rattle.walker.specs.Walks.{Whole};
ghost use Rattle.theory.specs.Wrote.{Wrote};
ghost use Rattle.finder_separators.specs.Kept.{words_from, WholeAt};

use numbers::wide_link;
use walker::word_length;

// How many bytes they take.
pub fn separators_size(text: &[u8], places: &[u16], count: usize) -> usize
    requires { WholeAt text.now places.now count }
    ensures { result ≡ length (flat_map word_bytes (words_from text.now places.now 0 count)) }
{
    let mut size = 0;
    for j in 0..count {
        size = size + 1 + word_length(text, wide_link(places[j]));
    }
    size
}

// The word at a place of the text.
fn copy_word(text: &[u8], word: usize, out: &mut [u8], at: usize) -> usize
    requires whole { Whole text.now word }
    requires word_in_bounds { at + length (word_bytes (word_at text.now word)) ≤ length out.old }
    ensures { Wrote out.old at (word_bytes (word_at text.now word)) out.new result }
{
    let size = 1 + word_length(text, word);
    for i in 0..size {
        out[at + i] = text[word + i];
    }
    at + size
}

// Writes them from the place `at` on. The answer is the place after them.
pub fn write_separators(
    text: &[u8],
    places: &[u16],
    count: usize,
    out: &mut [u8],
    at: usize,
) -> usize
    requires whole_at { WholeAt text.now places.now count }
    requires count_in_bounds { at + length (flat_map word_bytes (words_from text.now places.now 0 count)) ≤ length out.old }
    ensures { Wrote out.old at (flat_map word_bytes (words_from text.now places.now 0 count)) out.new result }
{
    let mut place = at;
    for j in 0..count {
        place = copy_word(text, wide_link(places[j]), out, place);
    }
    place
}
