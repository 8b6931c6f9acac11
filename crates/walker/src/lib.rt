// Words and tables where they stand in the bytes of a file: entries looked up, words walked. A golden state, a unit state, an
// input and an output are four sorts: a table has the sort of its states, so that no state is looked up in another sort's table.
#![tactic(auto)]

mod answers;
mod entries;
mod inputs;
mod records;
mod table;

pub use answers::{answer_alike, difference, outputs_agree, state_after, unit_difference};
pub use inputs::{input_at, input_byte, word_end, word_inputs, word_length};
pub use records::{record_end, recorded_difference, recorded_output};
pub use table::{State, Table};
