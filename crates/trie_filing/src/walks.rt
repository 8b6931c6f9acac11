// Words of the dossier walked in a trie.
ghost use Rattle.std.specs.Prelude.{◌≡◌, ◌<◌};
ghost use Rattle.reader.specs.Places.{word_at};
ghost use Rattle.walker.specs.Walks.{Whole};
ghost use Rattle.trie.specs.Model.{Trie, size, walk_from};
ghost use Rattle.trie.specs.Holds.{Holds, Node};

use trie::{Nodes, walk};
use walker::word_inputs;

// From a node along the word at a place; or none, where the walk leaves the trie.
pub fn walk_word(bytes: &[u8], word: usize, nodes: Nodes, node: usize) -> Option<usize>
    requires whole { Whole bytes.now word }
    requires node { Node nodes.label.now nodes.first.now nodes.next.now node }
    ensures { (t : Trie) → Holds t nodes.entry.label.now nodes.entry.first.now nodes.entry.next.now → node < size t → result ≡ walk_from t node (word_at bytes.now word) }
{
    walk(nodes, node, word_inputs(bytes, word))
}
