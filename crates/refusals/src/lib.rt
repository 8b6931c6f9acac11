// What a refusal says (the table of refusals in document 01, and document 02): its number, the file that it concerns, and its first two values, 0
// where it has none. It is said here once; packing and lines ask for it.
#![tactic(auto)]

ghost use Rattle.std.specs.Prelude.{◌≡◌, ◌<◌};
ghost use Rattle.rules.specs.Answers.{number_of, file_of, refusing};
ghost use Rattle.theory.specs.Answers.{value};

use rules::{File, Refusal};

// Of MISSING the second value is the length of its middle.
#[derive(Clone, Copy)]
pub struct Saying {
    pub number: u8,
    pub file: File,
    pub first: usize,
    pub second: usize,
}

fn says(number: u8, file: File, first: usize, second: usize) -> Saying
    ensures { (result.number ≡ number) × (result.file ≡ file) × (result.first ≡ first) × (result.second ≡ second) }
{
    Saying {
        number,
        file,
        first,
        second,
    }
}

pub fn said(r: Refusal) -> Saying
    ensures { (result.number ≡ number_of r) × (result.number < 32) × (result.file ≡ file_of r) × (result.first ≡ value (refusing r) 0) × (result.second ≡ value (refusing r) 1) }
{
    match r {
        Refusal::Malformed(fault, file, place) => says(fault.number(), file, place, 0),
        Refusal::NoEmptyWord => says(7, File::Dossier, 0, 0),
        Refusal::Unreached(file, state) => says(8, file, state.number() as usize, 0),
        Refusal::NoSeparator => says(9, File::Dossier, 0, 0),
        Refusal::NotSeparated(one, other) => says(
            10,
            File::Dossier,
            one.number() as usize,
            other.number() as usize,
        ),
        Refusal::Missing(cover, middle, _) => says(11, File::Dossier, cover, middle.len as usize),
        Refusal::Repeated(record) => says(12, File::Sheet, record, 0),
        Refusal::Foreign(record) => says(13, File::Sheet, record, 0),
        Refusal::Absent(test) => says(14, File::Sheet, test, 0),
        Refusal::OtherInputs => says(15, File::Unit, 0, 0),
        Refusal::TooManyStates => says(16, File::Unit, 0, 0),
        Refusal::NoRoom(needed) => says(17, File::Output, needed, 0),
        Refusal::NotReduced(one, other) => says(
            18,
            File::Unit,
            one.number() as usize,
            other.number() as usize,
        ),
        Refusal::BadLine(line) => says(19, File::Text, line, 0),
        Refusal::Contradiction(line) => says(20, File::Text, line, 0),
        Refusal::Incomplete(state, input) => says(
            21,
            File::Text,
            state.number() as usize,
            input.number() as usize,
        ),
    }
}
