// The unit: numbers and a table.
ghost use Rattle.std.specs.Prelude.{◌≡◌};
ghost use Rattle.rules.specs.Operations.{read_unit};
ghost use Rattle.reader.specs.Shapes.{unit_read};
ghost use Rattle.reader.specs.Chains.{placed, unit_places};

use crate::UnitShape;
use crate::file::{ending_at, read_file};
use reader_parts::{sizes_at, table_at};
use reader_steps::Stop;
use rules::{File, MOST_UNIT_BYTES, Refusal};

// The table's first entry: after the count of the numbers, the two numbers and the table's count.
const TABLE: usize = 6;

fn unit_at(bytes: &[u8]) -> Result<UnitShape, Stop>
    ensures { result ≡ placed (unit_places 0 bytes.now) }
{
    let sizes = sizes_at(bytes, 2, 0)?;
    let end = table_at(bytes, sizes.inputs, sizes.states, sizes.next)?;
    ending_at(
        bytes,
        UnitShape {
            inputs: sizes.inputs,
            states: sizes.states,
            table: TABLE,
        },
        end,
    )
}

pub fn read_unit(bytes: &[u8]) -> Result<UnitShape, Refusal>
    ensures { result ≡ unit_read (read_unit bytes.now) }
{
    read_file(bytes, File::Unit, MOST_UNIT_BYTES, || unit_at(bytes))
}
