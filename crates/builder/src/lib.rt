// The builder of test sections (document 01, "Build").
#![tactic(auto)]

mod answer;

pub use answer::build;
