// The places of the words that are kept.
ghost use Rattle.std.specs.Prelude.{◌≡◌, length};
ghost use Rattle.finder_distances.specs.Rounds.{DistancesAt};
ghost use Rattle.finder_telling.specs.Pairs.{AllTold};
ghost use Rattle.finder_spelling.specs.Spelt.{text_room, most_words};
ghost use Rattle.finder_separators.specs.Kept.{TextAt, KeptAt, SeparatorsAt};

use finder_spelling::spell_words;
use finder_unit::GoldenUnit;
use trie::Nodes;
use trie_filing::{NODES, find_firsts, put_words};

// A place for each word.
pub fn place_room() -> [u16; 2016]
    ensures { most_words ≡ length result }
{
    [0; 2016]
}

// The places of the words that stand first, over arrays with a place for each node of a trie. The answer is how many they are.
fn find_in(
    text: &[u8],
    inputs: u8,
    count: usize,
    label: &mut [u8],
    first: &mut [u16],
    next: &mut [u16],
    marks: &mut [u8],
    numbers: &mut [u16],
    places: &mut [u16],
) -> usize
    requires text_at { TextAt text.now inputs count }
    requires label_len { (length label.old ≡ 65536) × (length first.old ≡ 65536) × (length next.old ≡ 65536) × (length marks.old ≡ 65536) }
    requires numbers_len { (length numbers.old ≡ most_words) × (length places.old ≡ most_words) }
    ensures { KeptAt text.now count places.new result }
{
    put_words(text, 0, inputs, count, label, first, next);
    let nodes = Nodes { label, first, next };
    find_firsts(text, 0, inputs, count, nodes, marks, numbers, places)
}

// The arrays, and the search in them.
fn find_kept(text: &[u8], inputs: u8, count: usize, places: &mut [u16]) -> usize
    requires text_at { TextAt text.now inputs count }
    requires places_len { length places.old ≡ most_words }
    ensures { KeptAt text.now count places.new result }
{
    let mut label = [0; NODES];
    let mut first = [0; NODES];
    let mut next = [0; NODES];
    let mut marks = [0; NODES];
    let mut numbers = place_room();
    find_in(
        text,
        inputs,
        count,
        &mut label,
        &mut first,
        &mut next,
        &mut marks,
        &mut numbers,
        places,
    )
}

// Spells the words in the text, and finds the places of those that are kept. The answer is how many they are.
pub fn find_separators(
    unit: &GoldenUnit<'_>,
    distances: &[u8],
    text: &mut [u8],
    places: &mut [u16],
) -> usize
    requires distances_at { DistancesAt unit.now.bytes.now unit.now.shape distances.now }
    requires all_told { AllTold unit.now.shape.states distances.now }
    requires text_len { (length text.old ≡ text_room) × (length places.old ≡ most_words) }
    ensures { SeparatorsAt unit.now.bytes.now unit.now.shape distances.now text.new places.new result }
{
    let inputs = unit.shape.inputs;
    let count = spell_words(unit, distances, text);
    let distinct = find_kept(text, inputs, count, places);
    distinct
}
