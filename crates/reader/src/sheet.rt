// The sheet: records of a word and its outputs, over the inputs of the dossier that it belongs to.
ghost use Rattle.std.specs.Prelude.{◌≡◌};
ghost use Rattle.rules.specs.Operations.{read_sheet};
ghost use Rattle.reader.specs.Shapes.{sheet_read};
ghost use Rattle.reader.specs.Chains.{placed, sheet_places};

use crate::SheetShape;
use crate::file::{ending_at, read_file};
use reader_parts::records_at;
use reader_steps::{Stop, count_at};
use rules::{File, MOST_SHEET_BYTES, Refusal};

fn sheet_at(bytes: &[u8], inputs: u8) -> Result<SheetShape, Stop>
    ensures { result ≡ placed (sheet_places inputs 0 bytes.now) }
{
    let (count, records) = count_at(bytes, 0)?;
    let end = records_at(bytes, inputs, count, records)?;
    ending_at(bytes, SheetShape { records, count }, end)
}

// The sheet of a dossier with so many inputs.
pub fn read_sheet(bytes: &[u8], inputs: u8) -> Result<SheetShape, Refusal>
    ensures { result ≡ sheet_read (read_sheet inputs bytes.now) }
{
    read_file(
        bytes,
        File::Sheet,
        MOST_SHEET_BYTES,
        || sheet_at(bytes, inputs),
    )
}
