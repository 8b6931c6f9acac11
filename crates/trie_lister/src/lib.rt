// The words of a trie, listed and measured: the maximal ones, in order of inputs, each behind its length byte.
#![tactic(auto)]

ghost use Rattle.std.specs.Prelude.{◌≡◌, ℕ, ◌+◌, ◌≤◌, ◌<◌, ◌∷◌, length, take};
ghost use Rattle.rules.specs.Words.{Word};
ghost use Rattle.trie.specs.Model.{Trie, size};
ghost use Rattle.trie.specs.Holds.{Holds};
ghost use Rattle.trie_lister.specs.Visits.{leaves, maximal, bytes_of, WroteOf, MeasureOf, Visiting, Deep};

use rules::Input;
use texts::copy;
use trie::{Nodes, child};

// The word that the first n bytes of path are, behind its length byte, to out at the place at. The answer is the place behind it;
// or none, where there is no room.
fn emit(path: &[u8], n: usize, out: &mut [u8], at: usize) -> Option<usize>
    requires { (n ≤ length path.now) × (n < 256) × (at ≤ length out.old) }
    ensures { WroteOf (n ∷ take n path.now) out.old at out.new result }
{
    if out.len() - at <= n {
        return None;
    }
    out[at] = n as u8;
    copy(path, n, out, at + 1);
    Some(at + 1 + n)
}

// The maximal words below a node, whose word the first `depth` bytes of path are, in order of inputs, to out at the place at. The
// answer is the place behind them; or none, where there is no room.
pub fn visit(
    nodes: Nodes,
    k: u8,
    node: usize,
    path: &mut [u8],
    depth: usize,
    out: &mut [u8],
    at: usize,
) -> Option<usize>
    requires visiting { Visiting nodes.label.now nodes.first.now nodes.next.now node depth (length path.old) }
    requires path_len_bound { (length path.old < 256) × (at ≤ length out.old) }
    ensures path_unchanged { take depth path.new ≡ take depth path.old }
    ensures wrote_of { (t : Trie) → Holds t nodes.entry.label.now nodes.entry.first.now nodes.entry.next.now → node < size t → (d : ℕ) → size t ≤ node + d → WroteOf (bytes_of (leaves t k d node (take depth path.old))) out.old at out.new result }
{
    if nodes.first[node] == 0 {
        return emit(path, depth, out, at);
    }
    let mut pos = at;
    for a in 0..k {
        let Some(j) = child(nodes, node, Input::numbered(a)) else {
            continue;
        };
        path[depth] = a;
        pos = visit(nodes, k, j, path, depth + 1, out, pos)?;
    }
    Some(pos)
}

// The maximal words, in order of inputs, to out at the place at. Path is for the word at hand.
pub fn list(nodes: Nodes, k: u8, path: &mut [u8], out: &mut [u8], at: usize) -> Option<usize>
    requires deep { Deep nodes.label.now nodes.first.now nodes.next.now (length path.old) }
    requires path_len_bound { (length path.old < 256) × (at ≤ length out.old) }
    ensures { (t : Trie) → Holds t nodes.entry.label.now nodes.entry.first.now nodes.entry.next.now → WroteOf (bytes_of (maximal t k)) out.old at out.new result }
{
    visit(nodes, k, 0, path, 0, out, at)
}

// How many words there are with the maximal ones below a node, `words` being before them, and where their bytes end, which
// begin at the place at; or none, where they are more than the room. Nothing is written.
pub fn measure(
    nodes: Nodes,
    k: u8,
    node: usize,
    depth: usize,
    room: usize,
    words: usize,
    at: usize,
) -> Option<(usize, usize)>
    requires { Visiting nodes.label.now nodes.first.now nodes.next.now node depth 255 × (words ≤ at) × (at ≤ room) }
    ensures { (t : Trie) → Holds t nodes.entry.label.now nodes.entry.first.now nodes.entry.next.now → node < size t → (d : ℕ) → size t ≤ node + d → (u : Word) → length u ≡ depth → MeasureOf (leaves t k d node u) words at room result }
{
    if nodes.first[node] == 0 {
        if room - at <= depth {
            return None;
        }
        return Some((words + 1, at + 1 + depth));
    }
    let mut n = words;
    let mut pos = at;
    for a in 0..k {
        let Some(j) = child(nodes, node, Input::numbered(a)) else {
            continue;
        };
        let (m, p) = measure(nodes, k, j, depth + 1, room, n, pos)?;
        n = m;
        pos = p;
    }
    Some((n, pos))
}
