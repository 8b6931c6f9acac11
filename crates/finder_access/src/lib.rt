// The access words of a unit file that is taken as golden (document 02, L1): which states can be reached from 0, and the shortest
// word to each, the first by inputs among equals. One search over the states leaves a queue of them and each state's place in it;
// the words are read back through the queue.
#![tactic(auto)]

mod cover;
mod queue;
mod search;
mod spelling;

pub use cover::{measure_cover, write_cover};
pub use queue::{no_entries, no_places};
pub use search::{reach_states, unreached};
pub use spelling::{access_length, write_access};
