// The checker of dossiers (document 01, refusals 1 to 11).
#![tactic(auto)]

mod answer;

pub use answer::{accept, check};
