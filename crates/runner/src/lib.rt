// The run of a unit over a dossier's tests, and what the tests cost (document 01, "Operations and answers").
#![tactic(auto)]

mod costing;
mod trial;

pub use costing::cost;
pub use trial::{run, try_unit};
