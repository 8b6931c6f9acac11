// The needed words of a dossier, grown into a trie (document 01, "Needed words").
#![tactic(auto)]

mod cover;

pub use cover::grow_needed;
