// The records of a sheet in a trie: at the node of a word stands the place of the record that has it. A record of n inputs
// has more than 2 n bytes, so a sheet of at most 131,070 bytes has fewer than 65,535 inputs, and their trie fits.
#![tactic(auto)]

ghost use Rattle.std.specs.Prelude.{◌≡◌, map, suc, ◌≤◌, ◌<◌, length, None};
ghost use Rattle.rules.specs.Lists.{sum};
ghost use Rattle.rules.specs.Sizes.{most_sheet_bytes};
ghost use Rattle.rules.specs.Operations.{repeated};
ghost use Rattle.reader.specs.Places.{word_at, records_at, RecordsAt};
ghost use Rattle.walker.specs.Walks.{Whole};
ghost use Rattle.trie.specs.Model.{Trie, size};
ghost use Rattle.trie.specs.Holds.{Holds, Counted, Node};
ghost use Rattle.trie.specs.Values.{Map, value_of, Noted};
ghost use Rattle.judge_records.specs.Filed.{Filed, StoredOf, words_of, found_of};

use trie::{Nodes, clear_values, get, note, noted, start};
use trie_filing::put_word;
use walker::{record_end, word_inputs};

// How many nodes there are with the word of a record; or an earlier record has that word; or there is no room.
#[derive(Clone, Copy)]
pub enum Stored {
    New(usize),
    Old,
    Full,
}

// Puts the record at a place under its word, unless an earlier record has it.
fn put_record(
    sheet: &[u8],
    place: usize,
    label: &mut [u8],
    first: &mut [u16],
    next: &mut [u16],
    value: &mut [u32],
    nodes: usize,
) -> Stored
    requires whole { Whole sheet.now place × (length sheet.now ≤ most_sheet_bytes) }
    requires counted { Counted label.old first.old next.old nodes }
    requires value_len { length value.old ≡ length label.old }
    ensures { (t : Trie) (m : Map) → Holds t label.old first.old next.old → Noted t m value.old → nodes ≡ size t → StoredOf t m (word_at sheet.now place) place label.new first.new next.new value.new result }
{
    let Some((node, more)) = put_word(sheet, place, label, first, next, nodes, 0) else {
        return Stored::Full;
    };
    if noted(value, node) != 0 {
        return Stored::Old;
    }
    note(value, node, place as u32);
    Stored::New(more)
}

// Puts the records from a place on into an empty trie, up to the first one whose word an earlier record has, and answers its
// number. The arrays have a node for each input, so there is room.
pub fn put_records(
    sheet: &[u8],
    place: usize,
    inputs: u8,
    count: usize,
    label: &mut [u8],
    first: &mut [u16],
    next: &mut [u16],
    value: &mut [u32],
) -> Option<usize>
    requires records_at { RecordsAt sheet.now place inputs count × (0 < place) × (length sheet.now ≤ most_sheet_bytes) }
    requires count_in_bounds { (suc (sum (map length (words_of (records_at sheet.now place count)))) ≤ length label.old) × (length label.old ≤ 65536) }
    requires first_len { (length first.old ≡ length label.old) × (length next.old ≡ length label.old) × (length value.old ≡ length label.old) }
    ensures value { result ≡ found_of (repeated (records_at sheet.now place count)) }
    ensures filed { result ≡ None → Filed sheet.now inputs (records_at sheet.now place count) label.new first.new next.new value.new }
{
    clear_values(value);
    let mut nodes = start(label, first, next);
    let mut at = place;
    for i in 0..count {
        match put_record(sheet, at, label, first, next, value, nodes) {
            Stored::New(more) => {
                nodes = more;
            }
            Stored::Old => {
                return Some(i);
            }
            Stored::Full => {
                return None;
            }
        }
        at = record_end(sheet, at);
    }
    None
}

// The place of the record that has the word at a place, or 0, as the array has it by node: no record stands at the place 0.
pub fn record_of(bytes: &[u8], word: usize, nodes: Nodes, value: &[u32]) -> usize
    requires whole { Whole bytes.now word }
    requires node { Node nodes.label.now nodes.first.now nodes.next.now 0 }
    requires value_len { length value.now ≡ length nodes.label.now }
    ensures { (t : Trie) (m : Map) → Holds t nodes.entry.label.now nodes.entry.first.now nodes.entry.next.now → Noted t m value.now → result ≡ value_of m (word_at bytes.now word) }
{
    get(nodes, value, word_inputs(bytes, word)) as usize
}
