// Telling words read off the distances of states (document 02, L1): the lowest two states that no word tells apart, and for any other two their
// first telling word.
#![tactic(auto)]

mod pairs;
mod words;

pub use pairs::lowest_untold;
pub use words::write_telling;
