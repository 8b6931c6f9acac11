// Whether the word sets of a dossier reach each state and tell each two apart (document 01, refusals 1 to 10).
#![tactic(auto)]

mod sound;

pub use sound::read_sound;
