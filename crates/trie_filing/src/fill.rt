// The tests in a trie.
ghost use Rattle.std.specs.Prelude.{◌≡◌, map, suc, ◌≤◌, ◌<◌, length};
ghost use Rattle.rules.specs.Lists.{sum};
ghost use Rattle.reader.specs.Places.{word_at, words_at, WordsAt};
ghost use Rattle.walker.specs.Walks.{Whole};
ghost use Rattle.trie.specs.Model.{Trie, size, holding};
ghost use Rattle.trie.specs.Holds.{Holds, Counted, InsertOf};

use trie::{insert_at, start};
use walker::{word_end, word_inputs};

// Puts the word at a place into the trie, behind the word of a node: the node of its end, and how many nodes there are then; or none,
// where there is no room.
pub fn put_word(
    bytes: &[u8],
    word: usize,
    label: &mut [u8],
    first: &mut [u16],
    next: &mut [u16],
    nodes: usize,
    node: usize,
) -> Option<(usize, usize)>
    requires whole { Whole bytes.now word }
    requires counted { Counted label.old first.old next.old nodes × (node < nodes) }
    ensures { (t : Trie) → Holds t label.old first.old next.old → nodes ≡ size t → InsertOf t node (word_at bytes.now word) label.new first.new next.new result }
{
    insert_at(label, first, next, nodes, node, word_inputs(bytes, word))
}

// Puts the words from a place on into an empty trie. Its arrays have a node for each input of them, so there is room.
pub fn put_words(
    bytes: &[u8],
    place: usize,
    inputs: u8,
    count: usize,
    label: &mut [u8],
    first: &mut [u16],
    next: &mut [u16],
)
    requires words_at { WordsAt bytes.now place inputs count }
    requires count_in_bounds { (suc (sum (map length (words_at bytes.now place count))) ≤ length label.old) × (length label.old ≤ 65536) }
    requires first_len { (length first.old ≡ length label.old) × (length next.old ≡ length label.old) }
    ensures { Holds (holding (words_at bytes.now place count)) label.new first.new next.new }
{
    let mut nodes = start(label, first, next);
    let mut word = place;
    for _ in 0..count {
        let Some((_, more)) = put_word(bytes, word, label, first, next, nodes, 0) else {
            return;
        };
        nodes = more;
        word = word_end(bytes, word);
    }
}
