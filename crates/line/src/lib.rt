// Answers as lines of text: the line that the program `run` prints (document 01, "Worked pieces").
#![tactic(auto)]

mod ran;
mod refused;

pub use ran::{no_text, run_line};
pub use refused::{put_spot, write_refusal};

// Room for every line: a text, four numbers and a word, with spaces and the line feed.
pub const LINE_ROOM: usize = 346;

// A line: its first `length` bytes. The others are 0. There is no heap, so the bytes stand in an array of the largest size.
#[derive(Clone, Copy)]
pub struct Line {
    pub bytes: [u8; LINE_ROOM],
    pub length: usize,
}
