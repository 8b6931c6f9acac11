// The terms of a text (document 02, L2; docs/KISS2.md, rules 6 and 12): the inputs that a cube is opened into, the number that an
// output is, and the entries that the terms so far say, with which a further term may not disagree.
#![tactic(auto)]

mod contradictions;
mod cubes;
mod entries;

pub use contradictions::contradicts;
pub use cubes::{cube_has, output_value};
pub use entries::{entry_place, no_entries, put_term};
use importer_lines::Part;

// A term as it is compared and kept: where its cube stands in the text, the numbers of its two names, and its output's value.
#[derive(Clone, Copy)]
pub struct NumberedTerm {
    pub cube: Part,
    pub current: usize,
    pub next: usize,
    pub output: u8,
}
