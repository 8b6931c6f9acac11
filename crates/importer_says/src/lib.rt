// What a line of a KISS2 text says by itself (document 02, L2; docs/KISS2.md, rules 2 to 8 and 13).
#![tactic(auto)]

mod directives;
mod fields;
mod lines;

pub use directives::{end_name, name_of, reset_name};
use importer_lines::Part;
pub use lines::line_said;

// The directives that say a number.
#[derive(Clone, Copy)]
pub enum Directive {
    Inputs,
    Outputs,
    Terms,
    States,
}

// What the first of two fields names.
#[derive(Clone, Copy)]
enum Named {
    Number(Directive),
    Reset,
    Other,
}

// Names and bits are told by where they stand in the text. A term's are its cube, its current state, its next state and its output.
#[derive(Clone, Copy)]
pub enum LineSaid {
    Skipped,
    Number(Directive, usize),
    Reset(Part),
    Term(Part, Part, Part, Part),
    End,
    Bad,
}
