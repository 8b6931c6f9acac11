// Reading the three files (document 01, "The three files" and the refusals 1 to 6). A file is read once, front to back. What
// comes back is no copy of it: its numbers, and for each section the place of what stands first in it and how much there is,
// so that the crates above look things up in the bytes that were lent to them. What the answers mean stands in
// specs/Shapes.antt, what stands at a place in specs/Places.antt.
#![tactic(auto)]

mod bound;
mod dossier;
mod file;
mod sheet;
mod unit;

pub use bound::{bound_in_range, bound_of};
pub use dossier::read_dossier;
pub use sheet::read_sheet;
pub use unit::read_unit;

// A well-formed dossier. Each place is that of the first byte after a section's count.
#[derive(Clone, Copy)]
pub struct DossierShape {
    pub inputs: u8,
    pub states: u8,
    // as it stands in the file: `bound_of` says which bound it means
    pub bound_byte: u8,
    pub table: usize,
    pub cover: usize,
    pub covers: usize,
    pub separating: usize,
    pub separators: usize,
    pub tests: usize,
    pub count: usize,
}

// A well-formed unit.
#[derive(Clone, Copy)]
pub struct UnitShape {
    pub inputs: u8,
    pub states: u8,
    pub table: usize,
}

// A well-formed sheet: where its records start, and how many it has.
#[derive(Clone, Copy)]
pub struct SheetShape {
    pub records: usize,
    pub count: usize,
}
