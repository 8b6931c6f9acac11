// The words of a section at the places where each stands first.
ghost use Rattle.std.specs.Prelude.{◌≡◌, List, ◌∷◌, ◌≤◌, ◌<◌, length};
ghost use Rattle.rules.specs.Words.{Word, is_in};
ghost use Rattle.reader.specs.Places.{word_at, words_at, WordsAt};
ghost use Rattle.walker.specs.Walks.{Whole};
ghost use Rattle.trie.specs.Model.{Trie, holding};
ghost use Rattle.trie.specs.Holds.{Holds, Node};
ghost use Rattle.trie.specs.Words.{Has};
ghost use Rattle.trie.specs.Values.{marks_of, Noted};
ghost use Rattle.trie_filing.specs.Distinct.{FirstPlaces, StoredOf};

use crate::walks::walk_word;
use trie::{Nodes, clear_marks, is_marked, mark};
use walker::word_end;

// Whether the word at a place, which the trie has, was seen before. It is seen from now on.
fn seen_before(bytes: &[u8], word: usize, nodes: Nodes, marks: &mut [u8]) -> bool
    requires whole { Whole bytes.now word }
    requires node { Node nodes.label.now nodes.first.now nodes.next.now 0 }
    requires marks_len { length marks.old ≡ length nodes.label.now }
    ensures { (t : Trie) (ws : List Word) → Holds t nodes.entry.label.now nodes.entry.first.now nodes.entry.next.now → Has t (word_at bytes.now word) → Noted t (marks_of ws) marks.old → (result ≡ is_in (word_at bytes.now word) ws) × Noted t (marks_of (word_at bytes.now word ∷ ws)) marks.new }
{
    let Some(node) = walk_word(bytes, word, nodes, 0) else {
        return true;
    };
    let seen = is_marked(marks, node);
    mark(marks, node);
    seen
}

// The number and the place of a word behind n others, if it was not seen before. The answer is how many there are then.
fn store_first(
    seen: bool,
    numbers: &mut [u16],
    places: &mut [u16],
    n: usize,
    number: usize,
    place: usize,
) -> usize
    requires n_in_bounds { (n < length numbers.old) × (n < length places.old) }
    requires number_bound { (number ≤ 65535) × (place ≤ 65535) }
    ensures { StoredOf seen n number place numbers.old places.old numbers.new places.new result }
{
    if seen {
        return n;
    }
    numbers[n] = number as u16;
    places[n] = place as u16;
    n + 1
}

// The numbers and the places of the words from a place on, each word once, where it stands first. All of them are in the trie. The
// answer is how many they are: they stand at the front of arrays that have room for all words, and who reads them is told so.
pub fn find_firsts(
    bytes: &[u8],
    place: usize,
    inputs: u8,
    count: usize,
    nodes: Nodes,
    marks: &mut [u8],
    numbers: &mut [u16],
    places: &mut [u16],
) -> usize
    requires words_at { WordsAt bytes.now place inputs count }
    requires bytes_len_bound { length bytes.now ≤ 65535 }
    requires holds { Holds (holding (words_at bytes.now place count)) nodes.label.now nodes.first.now nodes.next.now }
    requires marks_len { length marks.old ≡ length nodes.label.now }
    requires count_in_bounds { (count ≤ length numbers.old) × (count ≤ length places.old) }
    ensures { FirstPlaces bytes.now place count numbers.new places.new result }
{
    clear_marks(marks);
    let mut n = 0;
    let mut word = place;
    for i in 0..count {
        let seen = seen_before(bytes, word, nodes, marks);
        n = store_first(seen, numbers, places, n, i, word);
        word = word_end(bytes, word);
    }
    n
}
