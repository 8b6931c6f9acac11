// The names of a text's states (docs/KISS2.md, rule 7), each once, as they were met. In fixed memory: 16 bytes for each of 64, and their
// lengths beside them.
#![tactic(auto)]

ghost use Rattle.std.specs.Prelude.{◌≡◌, List, [], ◌∷◌, ◌++◌, ◌-◌, ◌≤◌, ◌<◌, length};
ghost use Rattle.rules.specs.Words.{same};
ghost use Rattle.rules.specs.Kiss2.{Field, place_in};
ghost use Rattle.importer_lines.specs.Parts.{bytes_at, FieldIn};
ghost use Rattle.importer_names.specs.Names.{name_at, SlotIn, SlotsIn, NamesAt, NamedAs};

use importer_lines::Part;
use numbers::wide;
use rules::MOST_STATES;
use texts::{copy, same_text};

// As many bytes as a name may have.
const WIDTH: usize = 16;

const MOST_NAMES: usize = MOST_STATES as usize;

// Whether the name number j is a part of the text. Most names have another length or another last byte, as those that are numbered, so
// that these are looked at first.
fn is_named(text: &[u8], part: Part, names: &[u8], lengths: &[u8], j: usize) -> bool
    requires field_in { FieldIn text.now part }
    requires slot_in { SlotIn names.now lengths.now j }
    ensures { result ≡ same (name_at names.now lengths.now j) (bytes_at text.now part) }
{
    let Part { start, end } = part;
    let size = wide(lengths[j]);
    if end - start != size {
        return false;
    }
    let from = j * WIDTH;
    let to = from + size;
    names[to - 1] == text[end - 1] && same_text(&names[from..to], &text[start..end])
}

// The number of a name; as many as there are, where it is none of them: the place of a new name, as the rules count it.
pub fn find_name(text: &[u8], part: Part, names: &[u8], lengths: &[u8], count: usize) -> usize
    requires field_in { FieldIn text.now part }
    requires slots_in { SlotsIn names.now lengths.now count }
    ensures { ((l : List Field) → NamesAt names.now lengths.now l → length l ≡ count → result ≡ place_in l (bytes_at text.now part)) × (result ≤ count) }
{
    for j in 0..count {
        if is_named(text, part, names, lengths, j) {
            return j;
        }
    }
    count
}

// Puts a name behind the others.
pub fn add_name(text: &[u8], part: Part, names: &mut [u8], lengths: &mut [u8], count: usize)
    requires field_in { FieldIn text.now part × (part.end - part.start ≤ 16) × (count < 64) }
    requires names_len { (length names.old ≡ 1024) × (length lengths.old ≡ 64) }
    ensures { (l : List Field) → NamesAt names.old lengths.old l → length l ≡ count → NamesAt names.new lengths.new (l ++ (bytes_at text.now part ∷ [])) }
{
    let Part { start, end } = part;
    let size = end - start;
    lengths[count] = size as u8;
    copy(&text[start..end], size, names, count * WIDTH);
}

// The number of a name, which is put behind the others where it is new, and how many names there are then; nothing where there is no
// room for it.
pub fn number_name(
    text: &[u8],
    part: Part,
    names: &mut [u8],
    lengths: &mut [u8],
    count: usize,
) -> Option<(usize, usize)>
    requires field_in { FieldIn text.now part × (part.end - part.start ≤ 16) }
    requires slots_in { SlotsIn names.old lengths.old count }
    ensures { (l : List Field) → NamesAt names.old lengths.old l → length l ≡ count → NamedAs l (bytes_at text.now part) names.new lengths.new result }
{
    let number = find_name(text, part, names, lengths, count);
    if number < count {
        return Some((number, count));
    }
    if count == MOST_NAMES {
        return None;
    }
    add_name(text, part, names, lengths, count);
    Some((count, count + 1))
}
