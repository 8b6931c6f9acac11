// The lowest state, and then the lowest input, that no term is about (21).
ghost use Rattle.std.specs.Prelude.{◌≡◌, List, [], ℕ, ◌≤◌, ◌<◌, length, get_or};
ghost use Rattle.rules.specs.Lists.{first};
ghost use Rattle.rules.specs.Sizes.{most_inputs, most_states};
ghost use Rattle.rules.specs.Kiss2.{Field, Term, is_about, is_silent, grid};
ghost use Rattle.importer_terms.specs.Entries.{EntriesAt};
ghost use Rattle.importer_unit.specs.Numbered.{NumbersIn, NumberedAt};
ghost use Rattle.importer_unit.specs.Held.{LowestEmpty, silent_found};

use importer_terms::entry_place;
use numbers::wide;
use rules::{Input, UnitState};

// The lowest input of a name's number whose entry is empty.
fn empty_in_row(nexts: &[u8], current: usize, inputs: usize) -> Option<Input>
    requires { (length nexts.now ≡ 1024) × (current < most_states) × (inputs ≤ most_inputs) }
    ensures { LowestEmpty nexts.now current inputs result }
{
    for i in 0..inputs {
        let input = Input::numbered(i as u8);
        if nexts[entry_place(current, input)] == 0 {
            return Some(input);
        }
    }
    None
}

// The states are asked in the order of their numbers, and the inputs of each in theirs.
pub fn find_silent(
    nexts: &[u8],
    numbers: &[u8],
    states: usize,
    inputs: usize,
) -> Option<(UnitState, Input)>
    requires { (length nexts.now ≡ 1024) × NumbersIn numbers.now states × (inputs ≤ most_inputs) }
    ensures { (names order : List Field) (terms : List Term) (outputs ranks : List ℕ) → EntriesAt nexts.now outputs names terms → NumberedAt ranks numbers.now names order → length order ≡ states → result ≡ silent_found (first (λ (q, i). is_silent (first (is_about (get_or order q []) i) terms)) (grid states inputs)) }
{
    for q in 0..states {
        if let Some(input) = empty_in_row(nexts, wide(numbers[q]), inputs) {
            return Some((UnitState::numbered(q as u8), input));
        }
    }
    None
}
