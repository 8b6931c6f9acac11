// The numbers and the table of a machine, which a dossier and a unit both have.
ghost use Rattle.std.specs.Prelude.{◌≡◌, drop, eqb};
ghost use Rattle.rules.specs.Reading.{judged, count, entry, table};
ghost use Rattle.reader_steps.specs.Steps.{number_read, step};
ghost use Rattle.reader_parts.specs.Numbers.{sizes_read, number, sizes};

use crate::Sizes;
use numbers::wide;
use reader_steps::{Stop, count_at, judged_at, output_at, repeat};
use rules::{Fault, MOST_INPUTS, MOST_STATES};

// A number of at least 1 and at most `most`.
fn number_at(bytes: &[u8], most: u8, p: usize) -> Result<(u8, usize), Stop>
    ensures { result ≡ number_read (number most p (drop p bytes.now)) }
{
    judged_at(
        bytes,
        |number| 1 <= number && number <= most,
        Fault::BadNumbers,
        p,
    )
}

// A count that the file can only have as `expected`.
fn expected_at(bytes: &[u8], expected: usize, fault: Fault, p: usize) -> Result<usize, Stop>
    ensures { result ≡ step (judged (eqb expected) fault count p (drop p bytes.now)) }
{
    let (count, next) = count_at(bytes, p)?;
    if count == expected {
        Ok(next)
    } else {
        Err(Stop { fault, place: p })
    }
}

// The front of a file that has `expected` numbers: their count, the inputs and the states.
pub fn sizes_at(bytes: &[u8], expected: usize, p: usize) -> Result<Sizes, Stop>
    ensures { result ≡ sizes_read (sizes expected p (drop p bytes.now)) }
{
    let first = expected_at(bytes, expected, Fault::BadNumbers, p)?;
    let (inputs, middle) = number_at(bytes, MOST_INPUTS, first)?;
    let (states, next) = number_at(bytes, MOST_STATES, middle)?;
    Ok(Sizes {
        inputs,
        states,
        next,
    })
}

// The next state is judged before the output is looked for.
fn entry_at(bytes: &[u8], states: u8, p: usize) -> Result<usize, Stop>
    ensures { result ≡ step (entry states p (drop p bytes.now)) }
{
    let (_, output) = judged_at(bytes, |state| state < states, Fault::BadTable, p)?;
    output_at(bytes, output)
}

pub fn table_at(bytes: &[u8], inputs: u8, states: u8, p: usize) -> Result<usize, Stop>
    ensures { result ≡ step (table inputs states p (drop p bytes.now)) }
{
    // One entry for each state and input.
    let entries = wide(states) * wide(inputs);
    let first = expected_at(bytes, entries, Fault::BadTable, p)?;
    repeat(|p| entry_at(bytes, states, p), entries, first)
}
