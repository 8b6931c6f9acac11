// The judge of answer sheets (document 01, "Judge").
#![tactic(auto)]

use rules::Refusal;

mod answer;

pub use answer::{examine_both, failing_part, failing_word, judge};

// What the judge answers, in the three cases of `Judged`, and of a test that deviates also where its inputs stand in the dossier and
// how many they are.
#[derive(Clone, Copy)]
pub enum Examined {
    Agrees,
    Deviates(usize, usize, usize, usize),
    Refused(Refusal),
}

// A part of the dossier.
#[derive(Clone, Copy)]
pub struct WordPart {
    pub place: usize,
    pub size: usize,
}
