// Pairs of a golden state and a unit state, for the comparison (document 01, "Compare"): what an input does at a pair, the marks of
// the pairs that have been met, and the queue of them.
#![tactic(auto)]

ghost use Rattle.reader.specs.Places.{TableAt};
ghost use Rattle.comparer_pairs.specs.Pairs.{Comparable};

mod marks;
mod pairs;
mod queue;

pub use marks::{is_met, meet, no_marks};
pub use pairs::look;
pub use queue::{entry, input_at, no_entries, pair_at, parent_at};

// The two machines that are compared, over the same inputs, where they stand in their files.
#[derive(Clone, Copy)]
pub struct Sides<'a> {
    pub dossier: &'a [u8],
    pub unit: &'a [u8],
    pub inputs: u8,
    pub table: usize,
    pub states: u8,
    pub utable: usize,
    pub units: u8,
    ghost golden_stands: { TableAt dossier.now table inputs states },
    ghost unit_stands: { TableAt unit.now utable inputs units },
    ghost comparable: { Comparable inputs inputs states units },
}
