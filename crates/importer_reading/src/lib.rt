// The lines of a text one after the other (document 02, L2; docs/KISS2.md): what each adds to what was said before it, or the line that
// may not follow, or contradicts. Names, entries and numbers of states are kept in five tables that the caller lends, one by one:
// a line is lent those that it may change.
#![tactic(auto)]

mod directives;
mod lines;
mod naming;
mod terms;

use importer_counts::Counts;
use importer_lines::Part;
use importer_terms::NumberedTerm;
pub use lines::read_lines;

// What was counted; how many names there are; how many of them have a number.
#[derive(Clone, Copy)]
pub struct Progress {
    pub counts: Counts,
    pub names: usize,
    pub ranked: usize,
}

// Where the fields of a term stand.
#[derive(Clone, Copy)]
struct TermParts {
    cube: Part,
    current: Part,
    next: Part,
    output: Part,
}

// What is wrong with a line: it may not follow those before it, or it contradicts them.
#[derive(Clone, Copy)]
pub enum LineFault {
    Bad,
    Contradicts,
}
