// The recorded answers held against the golden's (document 01, "Judge"): AGREES, or DEVIATES with the first test.
#![tactic(auto)]

ghost use Rattle.std.specs.Prelude.{◌≡◌, List};
ghost use Rattle.rules.specs.Machines.{answer};
ghost use Rattle.rules.specs.Files.{SheetRecord};
ghost use Rattle.rules.specs.Operations.{recorded_for, deviating};
ghost use Rattle.theory.specs.Pairing.{NoneRepeated};
ghost use Rattle.reader.specs.Places.{word_at, machine_at, TableAt, WordsAt};
ghost use Rattle.walker.specs.Machines.{machine_in};
ghost use Rattle.walker.specs.Walks.{Whole, differ_at};
ghost use Rattle.judge_records.specs.Filed.{Filed};
ghost use Rattle.judge_pairing.specs.Lent.{tests_in};
ghost use Rattle.judge_verdict.specs.Deviations.{Answered, Served, deviation_of};

use judge_records::record_of;
use reader::DossierShape;
use rules::GoldenState;
use trie::Nodes;
use walker::{Table, recorded_difference, word_end};

// The first step at which the recorded answer to a test, which has a record, is not the golden's.
fn test_difference(
    golden: &Table<'_, GoldenState>,
    dossier: &[u8],
    word: usize,
    sheet: &[u8],
    nodes: Nodes,
    value: &[u32],
) -> Option<usize>
    requires whole { Whole dossier.now word }
    requires answered { Answered sheet.now golden.now.inputs (word_at dossier.now word) nodes.label.now nodes.first.now nodes.next.now value.now }
    ensures { (rs : List SheetRecord) → Filed sheet.now golden.now.inputs rs nodes.entry.label.now nodes.entry.first.now nodes.entry.next.now value.now → NoneRepeated rs → result ≡ differ_at (answer (machine_in golden.now) (word_at dossier.now word)) (recorded_for rs (word_at dossier.now word)) }
{
    let place = record_of(dossier, word, nodes, value);
    recorded_difference(golden, sheet, place)
}

// The place of the first test whose recorded answer is not the golden's, the first differing step, and the byte place of the test
// in the dossier. Each test has a record.
pub fn find_deviating(
    dossier: &[u8],
    x: DossierShape,
    sheet: &[u8],
    nodes: Nodes,
    value: &[u32],
) -> Option<(usize, usize, usize)>
    requires table_at { TableAt dossier.now x.table x.inputs x.states × WordsAt dossier.now x.tests x.inputs x.count }
    requires served { Served sheet.now x.inputs (tests_in dossier.now x) nodes.label.now nodes.first.now nodes.next.now value.now }
    ensures { (rs : List SheetRecord) → Filed sheet.now x.inputs rs nodes.entry.label.now nodes.entry.first.now nodes.entry.next.now value.now → NoneRepeated rs → result ≡ deviation_of dossier.now x.tests (machine_at dossier.now x.table x.inputs x.states) rs (deviating (machine_at dossier.now x.table x.inputs x.states) rs (tests_in dossier.now x)) }
{
    let golden = Table::standing(dossier, x.table, x.inputs, x.states);
    let mut word = x.tests;
    for i in 0..x.count {
        if let Some(step) = test_difference(&golden, dossier, word, sheet, nodes, value) {
            return Some((i, step, word));
        }
        word = word_end(dossier, word);
    }
    None
}
