// How far apart the states of a machine are (document 02, L1): for each two states the least number of inputs of a word that they answer
// differently, or 0 where no word tells them apart. The machine is that of a unit file, taken as golden.
#![tactic(auto)]

mod leads;
mod marks;
mod outputs;
mod rounds;

pub use leads::find_lead;
pub use marks::{distance_at, no_distances};
pub use rounds::find_distances;
