// The finder of cover and separating words (document 02, L1): a unit file taken as golden gives the dossier to build from.
#![tactic(auto)]

mod answer;
mod order;
mod writing;

pub use answer::find;
