// The larger parts that the three files are made of (document 01, "The three files" and the refusals 2 to 5): numbers, tables,
// records. What the answers mean stands in the specs of `reader_steps` and in specs/Numbers.antt.
#![tactic(auto)]

mod machine;
mod records;

pub use machine::{sizes_at, table_at};
pub use records::records_at;

// How many inputs and states the machine has.
#[derive(Clone, Copy)]
pub struct Sizes {
    pub inputs: u8,
    pub states: u8,
    pub next: usize,
}
