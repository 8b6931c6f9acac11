// The dossier: numbers, a table and three sections of words.
ghost use Rattle.std.specs.Prelude.{◌≡◌};
ghost use Rattle.rules.specs.Operations.{read_dossier};
ghost use Rattle.reader.specs.Shapes.{dossier_read};
ghost use Rattle.reader.specs.Chains.{placed, dossier_places};

use crate::DossierShape;
use crate::bound::bound_at;
use crate::file::{ending_at, read_file};
use reader_parts::{sizes_at, table_at};
use reader_steps::{Stop, words_at};
use rules::{File, MOST_DOSSIER_BYTES, MOST_SET_WORD, MOST_TEST_WORD, Refusal};

// The table's first entry: after the count of the numbers, the three numbers and the table's count.
const TABLE: usize = 7;

fn dossier_at(bytes: &[u8]) -> Result<DossierShape, Stop>
    ensures { result ≡ placed (dossier_places 0 bytes.now) }
{
    let sizes = sizes_at(bytes, 3, 0)?;
    let inputs = sizes.inputs;
    let states = sizes.states;
    let (bound_byte, p) = bound_at(bytes, states, sizes.next)?;
    let table_end = table_at(bytes, inputs, states, p)?;
    let cover = words_at(bytes, inputs, MOST_SET_WORD, table_end)?;
    let separating = words_at(bytes, inputs, MOST_SET_WORD, cover.next)?;
    let tests = words_at(bytes, inputs, MOST_TEST_WORD, separating.next)?;
    ending_at(
        bytes,
        DossierShape {
            inputs,
            states,
            bound_byte,
            table: TABLE,
            cover: cover.first,
            covers: cover.count,
            separating: separating.first,
            separators: separating.count,
            tests: tests.first,
            count: tests.count,
        },
        tests.next,
    )
}

pub fn read_dossier(bytes: &[u8]) -> Result<DossierShape, Refusal>
    ensures { result ≡ dossier_read (read_dossier bytes.now) }
{
    read_file(
        bytes,
        File::Dossier,
        MOST_DOSSIER_BYTES,
        || dossier_at(bytes),
    )
}
