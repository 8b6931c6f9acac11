// What is needed behind the word of a node: middles, and the separating words behind each. The mark of a node is one more
// than the length of the middles that were put in behind its word, so that no branch is grown twice.
#![tactic(auto)]

ghost use Rattle.std.specs.Prelude.{◌≡◌, ℕ, ◌<◌, length};
ghost use Rattle.rules.specs.Words.{Word};
ghost use Rattle.trie.specs.Model.{Trie, size, word_of};
ghost use Rattle.trie.specs.Holds.{Holds, Counted};
ghost use Rattle.trie.specs.Words.{Has};
ghost use Rattle.builder_branches.specs.Growing.{Separator, Separators, Behind, Done, Ready, BranchOf};

use rules::Input;
use trie::step;
use trie_filing::put_word;

// Puts the separating words in behind the word of a node, unless they are there. The answer is how many nodes the trie has then; or
// none, where there is no room.
fn put_separators(
    bytes: &[u8],
    places: &[u16],
    n: usize,
    label: &mut [u8],
    first: &mut [u16],
    next: &mut [u16],
    done: &[u8],
    nodes: usize,
    node: usize,
) -> Option<usize>
    requires separators { Separators bytes.now places.now n }
    requires counted { Counted label.old first.old next.old nodes × (node < nodes) × (node < length done.now) }
    ensures { (k : ℕ) (t : Trie) → Holds t label.old first.old next.old → nodes ≡ size t → Done k (Separator bytes.now places.now n) t done.now → BranchOf bytes.now places.now n k 0 (word_of t node) t label.new first.new next.new done.now result }
{
    if done[node] != 0 {
        return Some(nodes);
    }
    let mut count = nodes;
    for e in 0..n {
        let word = places[e] as usize;
        let (_, more) = put_word(bytes, word, label, first, next, count, node)?;
        count = more;
    }
    Some(count)
}

// Grows all that is needed behind the word of a node, where middles may have `left` inputs: the separating words, and behind
// each input the same with one input less, until none is left. The answer is how many nodes the trie has then; or none, where there
// is no room.
#[cycle(grow_grow_children)]
pub fn grow(
    bytes: &[u8],
    inputs: u8,
    places: &[u16],
    n: usize,
    label: &mut [u8],
    first: &mut [u16],
    next: &mut [u16],
    done: &mut [u8],
    nodes: usize,
    node: usize,
    left: u8,
) -> Option<usize>
    requires separators { Separators bytes.now places.now n }
    requires ready { Ready inputs (Separator bytes.now places.now n) label.old first.old next.old done.old nodes }
    requires node_lt_nodes { (node < nodes) × (left < 255) × (length done.old ≡ length label.old) }
    ensures { (t : Trie) → Holds t label.old first.old next.old → nodes ≡ size t → Done inputs (Separator bytes.now places.now n) t done.old → BranchOf bytes.now places.now n inputs left (word_of t node) t label.new first.new next.new done.new result }
{
    if left < done[node] {
        return Some(nodes);
    }
    let m = put_separators(bytes, places, n, label, first, next, done, nodes, node)?;
    let all = grow_children(
        bytes, inputs, places, n, label, first, next, done, m, node, left,
    )?;
    done[node] = left + 1;
    Some(all)
}

// The part of it that begins with an input. The separating words are there.
#[cycle(grow_grow_children)]
fn grow_children(
    bytes: &[u8],
    inputs: u8,
    places: &[u16],
    n: usize,
    label: &mut [u8],
    first: &mut [u16],
    next: &mut [u16],
    done: &mut [u8],
    nodes: usize,
    node: usize,
    left: u8,
) -> Option<usize>
    requires separators { Separators bytes.now places.now n }
    requires ready { Ready inputs (Separator bytes.now places.now n) label.old first.old next.old done.old nodes }
    requires node_lt_nodes { (node < nodes) × (left < 255) × (length done.old ≡ length label.old) }
    ensures { (t : Trie) → Holds t label.old first.old next.old → nodes ≡ size t → Done inputs (Separator bytes.now places.now n) t done.old → ((w : Word) → Behind inputs 0 (Separator bytes.now places.now n) (word_of t node) w → Has t w) → BranchOf bytes.now places.now n inputs left (word_of t node) t label.new first.new next.new done.new result }
{
    if left == 0 {
        return Some(nodes);
    }
    let mut count = nodes;
    for a in 0..inputs {
        let (child, more) = step(label, first, next, count, node, Input::numbered(a))?;
        count = grow(
            bytes,
            inputs,
            places,
            n,
            label,
            first,
            next,
            done,
            more,
            child,
            left - 1,
        )?;
    }
    Some(count)
}
