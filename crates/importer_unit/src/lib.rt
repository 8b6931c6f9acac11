// The unit that was read (document 02, L2; docs/KISS2.md, rule 14 and "What comes of it"): its states in the order of their numbers, the
// lowest state and input that no term is about, and its bytes.
#![tactic(auto)]

mod numbering;
mod silence;
mod writing;

pub use numbering::number_states;
pub use silence::find_silent;
pub use writing::write_unit;
