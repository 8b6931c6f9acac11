// Records of a sheet: a word, then as many outputs as it has inputs.
ghost use Rattle.std.specs.Prelude.{◌≡◌, ◌+◌, ◌≤◌, ◌<◌, eqb, length, get_or};
ghost use Rattle.rules.specs.Machines.{answer};
ghost use Rattle.reader.specs.Places.{word_at, outputs_at, after_word, after_record, WordAt};
ghost use Rattle.walker.specs.Machines.{machine_in};
ghost use Rattle.walker.specs.Walks.{differ_at};

use crate::entries::{OUTPUT_WIDTH, output_at};
use crate::inputs::{input_at, word_length};
use crate::table::Table;
use numbers::wide;
use rules::{GoldenState, Input, Output};

// The place after the record at a place.
pub fn record_end(sheet: &[u8], place: usize) -> usize
    requires { after_record sheet.now place ≤ length sheet.now }
    ensures { result ≡ after_record sheet.now place }
{
    let n = wide(sheet[place]);
    place + 1 + n + OUTPUT_WIDTH * n
}

// The output that the record at a place has at a step.
pub fn recorded_output(sheet: &[u8], place: usize, step: usize) -> Output
    requires place_in_bounds { after_record sheet.now place ≤ length sheet.now }
    requires step_bound { step < get_or sheet.now place 0 }
    ensures { result.0 ≡ get_or (outputs_at sheet.now (after_word sheet.now place) (get_or sheet.now place 0)) step 0 }
{
    let outputs = place + 1 + wide(sheet[place]);
    output_at(sheet, outputs + OUTPUT_WIDTH * step)
}

// Whether the golden gives an input of a record the output that is recorded for it.
fn record_agrees(
    golden: &Table<'_, GoldenState>,
    state: GoldenState,
    input: Input,
    sheet: &[u8],
    place: usize,
    step: usize,
) -> bool
    requires state_lt_states { (state.0 < golden.now.states) × (input.0 < golden.now.inputs) }
    requires place_in_bounds { after_record sheet.now place ≤ length sheet.now }
    requires step_bound { step < get_or sheet.now place 0 }
    ensures { result ≡ eqb ((machine_in golden.now).output state.0 input.0) (get_or (outputs_at sheet.now (after_word sheet.now place) (get_or sheet.now place 0)) step 0) }
{
    golden.output(state, input) == recorded_output(sheet, place, step)
}

// The first step at which the recorded answer to a record's word is not the golden's.
pub fn recorded_difference(
    golden: &Table<'_, GoldenState>,
    sheet: &[u8],
    place: usize,
) -> Option<usize>
    requires word_at { WordAt sheet.now place golden.now.inputs }
    requires place_in_bounds { after_record sheet.now place ≤ length sheet.now }
    ensures { result ≡ differ_at (answer (machine_in golden.now) (word_at sheet.now place)) (outputs_at sheet.now (after_word sheet.now place) (get_or sheet.now place 0)) }
{
    let mut state = GoldenState::numbered(0);
    for step in 0..word_length(sheet, place) {
        let input = input_at(sheet, place, golden.inputs, step);
        if !record_agrees(golden, state, input, sheet, place, step) {
            return Some(step);
        }
        state = golden.next(state, input);
    }
    None
}
