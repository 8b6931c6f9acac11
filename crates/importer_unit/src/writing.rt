// The bytes of the unit that was read, once it is known that no entry is empty and that there is room.
ghost use Rattle.std.specs.Prelude.{◌≡◌, ◌+◌, ◌*◌, ◌≤◌, ◌<◌, length};
ghost use mathlib.Core.List.{List, [], ◌∷◌, ◌++◌, map, flat_map};
ghost use Rattle.rules.specs.Lists.{◌∈◌, numbers_from, first};
ghost use Rattle.rules.specs.Sizes.{most_inputs, most_states};
ghost use Rattle.rules.specs.Files.{count_bytes, entry_bytes, unit_bytes};
ghost use Rattle.rules.specs.Operations.{overwritten};
ghost use Rattle.rules.specs.Kiss2.{Field, Term, is_about, entry_of};
ghost use Rattle.theory.specs.Wrote.{Wrote};
ghost use Rattle.importer_terms.specs.Entries.{EntriesAt};
ghost use Rattle.importer_unit.specs.Numbered.{NumberedAt};
ghost use Rattle.importer_unit.specs.Held.{Tables, EntryThere, RowThere, TableThere, entry_held, row_bytes, held_bytes};

use importer_terms::entry_place;
use numbers::wide;
use rules::Input;

// The next state's number and the output. The table has the number of the next state's name and one more; that name's rank is the state's
// number and one more.
fn write_entry(
    nexts: &[u8],
    outputs: &[u8],
    ranks: &[u8],
    place: usize,
    out: &mut [u8],
    at: usize,
) -> usize
    requires tables { Tables nexts.now outputs.now ranks.now × EntryThere nexts.now ranks.now place }
    requires at_in_bounds { at + 2 ≤ length out.old }
    ensures { Wrote out.old at (entry_bytes (entry_held nexts.now outputs.now ranks.now place)) out.new result }
{
    let name = wide(nexts[place] - 1);
    out[at] = ranks[name] - 1;
    out[at + 1] = outputs[place];
    at + 2
}

// The entries of a name's number.
fn write_row(
    nexts: &[u8],
    outputs: &[u8],
    ranks: &[u8],
    current: usize,
    inputs: usize,
    out: &mut [u8],
    at: usize,
) -> usize
    requires tables { Tables nexts.now outputs.now ranks.now × RowThere nexts.now ranks.now current inputs }
    requires inputs_in_bounds { at + 2 * inputs ≤ length out.old }
    ensures { Wrote out.old at (row_bytes nexts.now outputs.now ranks.now current 0 inputs) out.new result }
{
    let mut next = at;
    for i in 0..inputs {
        let place = entry_place(current, Input::numbered(i as u8));
        next = write_entry(nexts, outputs, ranks, place, out, next);
    }
    next
}

// The entries of all states, in the order of their numbers.
fn write_table(
    nexts: &[u8],
    outputs: &[u8],
    ranks: &[u8],
    numbers: &[u8],
    states: usize,
    inputs: usize,
    out: &mut [u8],
    at: usize,
) -> usize
    requires tables { Tables nexts.now outputs.now ranks.now × TableThere nexts.now ranks.now numbers.now states inputs }
    requires inputs_in_bounds { at + 2 * (states * inputs) ≤ length out.old }
    ensures { Wrote out.old at (held_bytes nexts.now outputs.now ranks.now numbers.now inputs 0 states) out.new result }
{
    let mut next = at;
    for q in 0..states {
        next = write_row(nexts, outputs, ranks, wide(numbers[q]), inputs, out, next);
    }
    next
}

// What stands before the entries: the two sizes behind their count, and the count of the entries.
fn write_head(states: usize, inputs: usize, out: &mut [u8]) -> usize
    requires { (6 ≤ length out.old) × (states ≤ most_states) × (inputs ≤ most_inputs) }
    ensures { Wrote out.old 0 (count_bytes 2 ++ (inputs ∷ states ∷ []) ++ count_bytes (states * inputs)) out.new result }
{
    let count = states * inputs;
    out[..6].copy_from_slice(&[
        2,
        0,
        inputs as u8,
        states as u8,
        (count % 256) as u8,
        (count / 256) as u8,
    ]);
    6
}

// The whole unit.
pub fn write_unit(
    nexts: &[u8],
    outputs: &[u8],
    ranks: &[u8],
    numbers: &[u8],
    states: usize,
    inputs: usize,
    out: &mut [u8],
)
    requires tables { Tables nexts.now outputs.now ranks.now × TableThere nexts.now ranks.now numbers.now states inputs }
    requires inputs_in_bounds { 6 + 2 * (states * inputs) ≤ length out.old }
    ensures { (names order : List Field) (terms : List Term) → EntriesAt nexts.now outputs.now names terms → NumberedAt ranks.now numbers.now names order → ((t : Term) → t ∈ terms → t.next ∈ names) → length order ≡ states → out.new ≡ overwritten (unit_bytes (record { inputs = inputs; states = states; table = flat_map (λ state. map (λ i. entry_of order (first (is_about state i) terms)) (numbers_from 0 inputs)) order })) out.old }
{
    let table = write_head(states, inputs, out);
    write_table(nexts, outputs, ranks, numbers, states, inputs, out, table);
}
