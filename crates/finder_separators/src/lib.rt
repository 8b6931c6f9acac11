// The separating words that are found for a unit (document 02, L1): the first telling words of all pairs of states, each kept once at its first
// place. They stay where they were spelt, in a text, and are told by their places in it.
#![tactic(auto)]

mod kept;
mod written;

pub use kept::{find_separators, place_room};
pub use written::{separators_size, write_separators};
