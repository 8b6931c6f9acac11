// The records of a sheet.
ghost use Rattle.std.specs.Prelude.{◌≡◌, drop};
ghost use Rattle.rules.specs.Reading.{many, sheet_record};
ghost use Rattle.reader_steps.specs.Steps.{step};

use reader_steps::{Stop, inputs_at, length_at, outputs_at, repeat};
use rules::MOST_TEST_WORD;

// A word, then as many outputs as it has inputs.
fn record_at(bytes: &[u8], inputs: u8, p: usize) -> Result<usize, Stop>
    ensures { result ≡ step (sheet_record inputs p (drop p bytes.now)) }
{
    let (length, first) = length_at(bytes, MOST_TEST_WORD, p)?;
    let outputs = inputs_at(bytes, inputs, length, first)?;
    outputs_at(bytes, length, outputs)
}

pub fn records_at(bytes: &[u8], inputs: u8, count: usize, at: usize) -> Result<usize, Stop>
    ensures { result ≡ step (many (sheet_record inputs) count at (drop at bytes.now)) }
{
    repeat(|p| record_at(bytes, inputs, p), count, at)
}
