// The comparison of golden and unit (document 01, "Compare"): the answer, and the telling word.
#![tactic(auto)]

mod answer;
mod spelling;

pub use answer::compare;
