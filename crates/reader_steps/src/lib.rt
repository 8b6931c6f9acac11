// The steps by which the three files are read (document 01, "The three files" and the refusals 2 and 5): bytes, counts, inputs,
// outputs, words and sections of words. What the answers mean stands in specs/Steps.antt.
#![tactic(auto)]

ghost use Rattle.std.specs.Prelude.{◌≡◌};

use rules::{Fault, File, Refusal};

mod steps;
mod words;

pub use steps::{byte_at, count_at, judged_at, output_at, outputs_at, repeat};
pub use words::{inputs_at, length_at, words_at};

// Why a reading stopped, and where: every step answers this where it cannot go on.
#[derive(Clone, Copy)]
pub struct Stop {
    pub fault: Fault,
    pub place: usize,
}

impl Stop {
    // Who reads a file refuses it so.
    pub fn refusal(self, file: File) -> Refusal
        ensures { result ≡ Refusal.Malformed self.fault file self.place }
    {
        Refusal::Malformed(self.fault, file, self.place)
    }
}

// A section of words. Its first word stands at `first`, if it has one.
#[derive(Clone, Copy)]
pub struct Section {
    pub first: usize,
    pub count: usize,
    pub next: usize,
}
