// The first record whose word is no test (document 01, refusal 13). The tests are walked in the trie of the records and mark it.
ghost use Rattle.std.specs.Prelude.{◌≡◌, List, [], ◌∷◌, true, length};
ghost use Rattle.rules.specs.Words.{Word, is_in};
ghost use Rattle.rules.specs.Operations.{foreign};
ghost use Rattle.reader.specs.Places.{word_at, words_at, records_at, WordsAt, RecordsAt};
ghost use Rattle.walker.specs.Walks.{Whole};
ghost use Rattle.trie.specs.Model.{Trie};
ghost use Rattle.trie.specs.Holds.{Holds, Node};
ghost use Rattle.judge_records.specs.Filed.{words_of, found_of};
ghost use Rattle.judge_pairing.specs.Marked.{Marking, Knowing};

use trie::{Nodes, clear_marks, is_marked, mark};
use trie_filing::walk_word;
use walker::{record_end, word_end};

// Marks the word of a test, if the trie has it.
fn mark_test(dossier: &[u8], word: usize, nodes: Nodes, marks: &mut [u8])
    requires whole { Whole dossier.now word }
    requires node { Node nodes.label.now nodes.first.now nodes.next.now 0 }
    requires marks_len { length marks.old ≡ length nodes.label.now }
    ensures { (t : Trie) (all rest : List Word) → Holds t nodes.entry.label.now nodes.entry.first.now nodes.entry.next.now → Marking t all (word_at dossier.now word ∷ rest) marks.old → Marking t all rest marks.new }
{
    if let Some(node) = walk_word(dossier, word, nodes, 0) {
        mark(marks, node);
    }
}

// Marks those words of the trie that are tests.
pub fn mark_tests(
    dossier: &[u8],
    place: usize,
    inputs: u8,
    count: usize,
    nodes: Nodes,
    marks: &mut [u8],
)
    requires words_at { WordsAt dossier.now place inputs count }
    requires node { Node nodes.label.now nodes.first.now nodes.next.now 0 }
    requires marks_len { length marks.old ≡ length nodes.label.now }
    ensures { (t : Trie) → Holds t nodes.entry.label.now nodes.entry.first.now nodes.entry.next.now → Marking t (words_at dossier.now place count) [] marks.new }
{
    clear_marks(marks);
    let mut word = place;
    for _ in 0..count {
        mark_test(dossier, word, nodes, marks);
        word = word_end(dossier, word);
    }
}

// Whether the word of the record at a place is a test. The trie has it.
fn is_test(sheet: &[u8], place: usize, nodes: Nodes, marks: &[u8]) -> bool
    requires whole { Whole sheet.now place }
    requires node { Node nodes.label.now nodes.first.now nodes.next.now 0 }
    requires marks_len { length marks.now ≡ length nodes.label.now }
    ensures { (tests words : List Word) → Knowing tests words nodes.entry.label.now nodes.entry.first.now nodes.entry.next.now marks.now → is_in (word_at sheet.now place) words ≡ true → result ≡ is_in (word_at sheet.now place) tests }
{
    match walk_word(sheet, place, nodes, 0) {
        Some(node) => is_marked(marks, node),
        None => false,
    }
}

// The first record whose word is no test.
pub fn find_foreign(
    sheet: &[u8],
    place: usize,
    inputs: u8,
    count: usize,
    nodes: Nodes,
    marks: &[u8],
) -> Option<usize>
    requires records_at { RecordsAt sheet.now place inputs count }
    requires node { Node nodes.label.now nodes.first.now nodes.next.now 0 }
    requires marks_len { length marks.now ≡ length nodes.label.now }
    ensures { (tests : List Word) → Knowing tests (words_of (records_at sheet.now place count)) nodes.entry.label.now nodes.entry.first.now nodes.entry.next.now marks.now → result ≡ found_of (foreign tests (records_at sheet.now place count)) }
{
    let mut at = place;
    for i in 0..count {
        if !is_test(sheet, at, nodes, marks) {
            return Some(i);
        }
        at = record_end(sheet, at);
    }
    None
}
