// The words of a file, filed in a trie where they stand in the bytes.
#![tactic(auto)]

mod distinct;
mod fill;
mod walks;

pub use distinct::find_firsts;
pub use fill::{put_word, put_words};
pub use walks::walk_word;

// The most nodes that a trie has room for: a link is two bytes.
pub const NODES: usize = 65536;
