// Words in a trie: three arrays that the caller lends, with an entry for each node. Node 0 is the root, the empty word. A
// node has its label, its newest child and its next older sibling, 0 for none. Other arrays hold numbers or marks by node.
#![tactic(auto)]

ghost use Rattle.std.specs.Prelude.{◌≡◌, ◌+◌, ◌≤◌, ◌<◌, List, [], ◌∷◌, length};
ghost use Rattle.rules.specs.Words.{Word, is_in};
ghost use Rattle.trie.specs.Model.{Trie, root, grow, size, child_in, word_of, walk_from, Proper};
ghost use Rattle.trie.specs.Holds.{Holds, Node, Counted, ChildOf, StepOf, InsertOf};
ghost use Rattle.trie.specs.Values.{Map, empty, put, value_of, marks_of, Noted};

use numbers::wide_link;
use rules::Input;

// The three arrays of a trie, for a function that only reads them. One that writes is lent them apart, since its promise says of each
// what it holds afterwards.
#[derive(Clone, Copy)]
pub struct Nodes<'a> {
    pub label: &'a [u8],
    pub first: &'a [u16],
    pub next: &'a [u16],
}

// The empty trie: one node, the root.
pub fn start(label: &mut [u8], first: &mut [u16], next: &mut [u16]) -> usize
    requires label_nonzero { (0 < length label.old) × (length label.old ≤ 65536) }
    requires first_len { (length first.old ≡ length label.old) × (length next.old ≡ length label.old) }
    ensures { (result ≡ 1) × Holds root label.new first.new next.new }
{
    label[0] = 0;
    first[0] = 0;
    next[0] = 0;
    1
}

// The node under p with the label a.
pub fn child(nodes: Nodes, p: usize, a: Input) -> Option<usize>
    requires { Node nodes.label.now nodes.first.now nodes.next.now p }
    ensures { (t : Trie) → Holds t nodes.entry.label.now nodes.entry.first.now nodes.entry.next.now → p < size t → ChildOf t p a.0 result }
{
    let wanted = a.number();
    let mut j = wide_link(nodes.first[p]);
    while j != 0 {
        if nodes.label[j] == wanted {
            return Some(j);
        }
        j = wide_link(nodes.next[j]);
    }
    None
}

// One node more, the node `count`, under p with the label a. The answer is the new count.
fn add(
    label: &mut [u8],
    first: &mut [u16],
    next: &mut [u16],
    count: usize,
    p: usize,
    a: Input,
) -> usize
    requires counted { Counted label.old first.old next.old count }
    requires p_lt_count { (p < count) × (count < length label.old) }
    ensures { (result ≡ count + 1) × ((t : Trie) → Holds t label.old first.old next.old → count ≡ size t → child_in t p a.0 ≡ 0 → Holds (grow t p a.0) label.new first.new next.new) }
{
    label[count] = a.number();
    next[count] = first[p];
    first[p] = count as u16;
    first[count] = 0;
    count + 1
}

// From the node p along the word w; or none, where the walk leaves the trie.
pub fn walk(nodes: Nodes, p: usize, w: &[u8]) -> Option<usize>
    requires { Node nodes.label.now nodes.first.now nodes.next.now p }
    ensures { (t : Trie) → Holds t nodes.entry.label.now nodes.entry.first.now nodes.entry.next.now → p < size t → result ≡ walk_from t p w.now }
{
    let mut node = p;
    for a in w {
        let Some(under) = child(nodes, node, Input::numbered(*a)) else {
            return None;
        };
        node = under;
    }
    Some(node)
}

// The node under p with the label a, made if there is none, and how many nodes there are then; or none, where there is no room.
pub fn step(
    label: &mut [u8],
    first: &mut [u16],
    next: &mut [u16],
    count: usize,
    p: usize,
    a: Input,
) -> Option<(usize, usize)>
    requires counted { Counted label.old first.old next.old count }
    requires p_lt_count { p < count }
    ensures { (t : Trie) → Holds t label.old first.old next.old → count ≡ size t → StepOf t p a.0 label.new first.new next.new result }
{
    let met = child(Nodes { label, first, next }, p, a);
    if let Some(j) = met {
        return Some((j, count));
    }
    if label.len() <= count {
        return None;
    }
    let m = add(label, first, next, count, p, a);
    Some((count, m))
}

// The word w put in from the node p: the node of its end, and how many nodes there are then; or none, where there is no room.
pub fn insert_at(
    label: &mut [u8],
    first: &mut [u16],
    next: &mut [u16],
    count: usize,
    p: usize,
    w: &[u8],
) -> Option<(usize, usize)>
    requires counted { Counted label.old first.old next.old count }
    requires p_lt_count { p < count }
    ensures { (t : Trie) → Holds t label.old first.old next.old → count ≡ size t → InsertOf t p w.now label.new first.new next.new result }
{
    let mut node = p;
    let mut m = count;
    for a in w {
        let (j, k) = step(label, first, next, m, node, Input::numbered(*a))?;
        node = j;
        m = k;
    }
    Some((node, m))
}

// No numbers: where none was noted for a node, the array holds 0, and so no Option stands for it.
pub fn clear_values(value: &mut [u32])
    ensures { (t : Trie) → Noted t empty value.new }
{
    value.fill(0);
}

// The number v for the word of a node.
pub fn note(value: &mut [u32], node: usize, v: u32)
    requires { node < length value.old }
    ensures { (t : Trie) (m : Map) → Proper t → Noted t m value.old → node < size t → Noted t (put m (word_of t node) v) value.new }
{
    value[node] = v;
}

// The number of the word of a node, or 0.
pub fn noted(value: &[u32], node: usize) -> u32
    requires { node < length value.now }
    ensures { (t : Trie) (m : Map) → Noted t m value.now → node < size t → result ≡ value_of m (word_of t node) }
{
    value[node]
}

// The number of the word w, or 0.
pub fn get(nodes: Nodes, value: &[u32], w: &[u8]) -> u32
    requires node { Node nodes.label.now nodes.first.now nodes.next.now 0 }
    requires value_len { length value.now ≡ length nodes.label.now }
    ensures { (t : Trie) (m : Map) → Holds t nodes.entry.label.now nodes.entry.first.now nodes.entry.next.now → Noted t m value.now → result ≡ value_of m w.now }
{
    match walk(nodes, 0, w) {
        Some(i) => value[i],
        None => 0,
    }
}

// No marks.
pub fn clear_marks(marks: &mut [u8])
    ensures { (t : Trie) → Noted t (marks_of []) marks.new }
{
    marks.fill(0);
}

// The word of a node is marked.
pub fn mark(marks: &mut [u8], node: usize)
    requires { node < length marks.old }
    ensures { (t : Trie) (ws : List Word) → Proper t → Noted t (marks_of ws) marks.old → node < size t → Noted t (marks_of (word_of t node ∷ ws)) marks.new }
{
    marks[node] = 1;
}

// Whether the word of a node is marked.
pub fn is_marked(marks: &[u8], node: usize) -> bool
    requires { node < length marks.now }
    ensures { (t : Trie) (ws : List Word) → Noted t (marks_of ws) marks.now → node < size t → result ≡ is_in (word_of t node) ws }
{
    marks[node] != 0
}
