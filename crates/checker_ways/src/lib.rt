// The ways that the search for a missing word goes in the trie of the tests (document 01, refusal 11): along a cover word, along
// a middle behind it, and along a separating word behind both.
#![tactic(auto)]

ghost use Rattle.std.specs.Prelude.{◌≡◌, List, [], ◌++◌, ℕ, ◌<◌, length, get_or, set};
ghost use Rattle.rules.specs.Lists.{any};
ghost use Rattle.rules.specs.Words.{Word, begins, shortlex};
ghost use Rattle.reader.specs.Places.{word_at};
ghost use Rattle.walker.specs.Walks.{Whole};
ghost use Rattle.trie.specs.Model.{Trie, size, word_of, walk_from, holding};
ghost use Rattle.trie.specs.Holds.{Holds, Node};
ghost use Rattle.checker_ways.specs.Kept.{WayOf, KeptAt, KeptNext, Keeping};

use numbers::wide_link;
use rules::Input;
use trie::{Nodes, child, is_marked};
use trie_filing::walk_word;

// From a node along the middle number y: one step from the node of the middle that it grows from.
fn walk_middle(inputs: u8, y: usize, nodes: Nodes, kept: &[u16], from: usize) -> Option<usize>
    requires { Keeping nodes.label.now nodes.first.now nodes.next.now kept.now inputs from y }
    ensures { (t : Trie) (longest : ℕ) → Holds t nodes.entry.label.now nodes.entry.first.now nodes.entry.next.now → from < size t → y < length (shortlex inputs longest) → KeptAt t from (shortlex inputs longest) kept.now y → result ≡ walk_from t from (get_or (shortlex inputs longest) y []) }
{
    if y == 0 {
        return Some(from);
    }
    let k = inputs as usize;
    let up = wide_link(kept[(y - 1) / k]);
    let i = (y - 1) % k;
    child(nodes, up, Input::numbered(i as u8))
}

// Keeps the node of the middle number y, if others may grow from it.
fn keep_node(kept: &mut [u16], y: usize, node: usize)
    requires { node < 65536 }
    ensures { kept.new ≡ set kept.old y node }
{
    if y < kept.len() {
        kept[y] = node as u16;
    }
}

// Where a walk from the root leads: out of the trie, to a marked node, or to one that is to be looked at.
#[derive(Clone, Copy)]
pub enum Way {
    Off,
    Known,
    To(usize),
}

// Along the cover word at a place.
pub fn way_of_cover(bytes: &[u8], word: usize, nodes: Nodes, done: &[u8]) -> Way
    requires whole { Whole bytes.now word }
    requires node { Node nodes.label.now nodes.first.now nodes.next.now 0 }
    requires done_len { length done.now ≡ length nodes.label.now }
    ensures { (t : Trie) → Holds t nodes.entry.label.now nodes.entry.first.now nodes.entry.next.now → WayOf t done.now (word_at bytes.now word) result }
{
    let Some(node) = walk_word(bytes, word, nodes, 0) else {
        return Way::Off;
    };
    if is_marked(done, node) {
        return Way::Known;
    }
    Way::To(node)
}

// Along the middle number y behind the word of a node.
pub fn way_of_middle(
    inputs: u8,
    y: usize,
    nodes: Nodes,
    marks: &[u8],
    kept: &mut [u16],
    from: usize,
) -> Way
    requires keeping { Keeping nodes.label.now nodes.first.now nodes.next.now kept.old inputs from y }
    requires marks_len { length marks.now ≡ length nodes.label.now }
    ensures { (t : Trie) (longest : ℕ) → Holds t nodes.entry.label.now nodes.entry.first.now nodes.entry.next.now → from < size t → y < length (shortlex inputs longest) → KeptAt t from (shortlex inputs longest) kept.old y → WayOf t marks.now (word_of t from ++ get_or (shortlex inputs longest) y []) result × KeptNext t from (shortlex inputs longest) kept.new y result }
{
    let Some(end) = walk_middle(inputs, y, nodes, kept, from) else {
        return Way::Off;
    };
    keep_node(kept, y, end);
    if is_marked(marks, end) {
        return Way::Known;
    }
    Way::To(end)
}

// Whether the word of a node, then the word at a place, begins a test.
pub fn begun(bytes: &[u8], word: u16, nodes: Nodes, node: usize) -> bool
    requires whole { Whole bytes.now word }
    requires node { Node nodes.label.now nodes.first.now nodes.next.now node }
    ensures { (tests : List Word) → 0 < length tests → Holds (holding tests) nodes.entry.label.now nodes.entry.first.now nodes.entry.next.now → node < size (holding tests) → result ≡ any (begins (word_of (holding tests) node ++ word_at bytes.now word)) tests }
{
    walk_word(bytes, word as usize, nodes, node).is_some()
}
