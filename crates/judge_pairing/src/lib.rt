// Records paired with tests by their words (document 01, refusals 12 to 14).
#![tactic(auto)]

mod foreign;

ghost use Rattle.std.specs.Prelude.{◌≡◌, List, ℕ, length, Ok};
ghost use Rattle.rules.specs.Files.{SheetRecord};
ghost use Rattle.rules.specs.Operations.{absent, pair as pair_rule};
ghost use Rattle.reader.specs.Places.{words_at, WordsAt};
ghost use Rattle.soundness.specs.Lent.{finding_of};
ghost use Rattle.trie.specs.Holds.{Node};
ghost use Rattle.judge_records.specs.Filed.{Filed, found_of};
ghost use Rattle.judge_pairing.specs.Lent.{SheetLent, tests_in, records_in};
ghost use Rattle.judge_pairing.specs.Unpaired.{unpaired, first_refusal};

use foreign::{find_foreign, mark_tests};
use judge_records::{put_records, record_of};
use reader::{DossierShape, SheetShape};
use rules::Refusal;
use trie::Nodes;
use walker::word_end;

// The first test that has no record.
fn find_absent(
    dossier: &[u8],
    place: usize,
    inputs: u8,
    count: usize,
    nodes: Nodes,
    value: &[u32],
) -> Option<usize>
    requires words_at { WordsAt dossier.now place inputs count }
    requires node { Node nodes.label.now nodes.first.now nodes.next.now 0 }
    requires value_len { length value.now ≡ length nodes.label.now }
    ensures { (s : List ℕ) (k : ℕ) (rs : List SheetRecord) → Filed s k rs nodes.entry.label.now nodes.entry.first.now nodes.entry.next.now value.now → result ≡ found_of (absent (words_at dossier.now place count) rs) }
{
    let mut word = place;
    for i in 0..count {
        if record_of(dossier, word, nodes, value) == 0 {
            return Some(i);
        }
        word = word_end(dossier, word);
    }
    None
}

// 13 comes before 14.
fn first_refusal(foreign: Option<usize>, absent: Option<usize>) -> Result<(), Refusal>
    ensures { result ≡ first_refusal foreign absent }
{
    if let Some(record) = foreign {
        return Err(Refusal::Foreign(record));
    }
    match absent {
        Some(test) => Err(Refusal::Absent(test)),
        None => Ok(()),
    }
}

// 13 and 14, with the records in the trie.
fn find_unpaired(
    dossier: &[u8],
    x: DossierShape,
    sheet: &[u8],
    y: SheetShape,
    nodes: Nodes,
    value: &[u32],
    marks: &mut [u8],
) -> Result<(), Refusal>
    requires words_at { WordsAt dossier.now x.tests x.inputs x.count × SheetLent sheet.now x.inputs y }
    requires filed { Filed sheet.now x.inputs (records_in sheet.now y) nodes.label.now nodes.first.now nodes.next.now value.now }
    requires marks_len { length marks.old ≡ length nodes.label.now }
    ensures { result ≡ finding_of (unpaired (tests_in dossier.now x) (records_in sheet.now y)) }
{
    let inputs = x.inputs;
    mark_tests(dossier, x.tests, inputs, x.count, nodes, marks);
    let foreign = find_foreign(sheet, y.records, inputs, y.count, nodes, marks);
    let absent = find_absent(dossier, x.tests, inputs, x.count, nodes, value);
    first_refusal(foreign, absent)
}

// 12, 13 and 14, over arrays with an entry for each node. Where none of them is found, the trie has each test's record.
pub fn pair(
    dossier: &[u8],
    x: DossierShape,
    sheet: &[u8],
    y: SheetShape,
    label: &mut [u8],
    first: &mut [u16],
    next: &mut [u16],
    value: &mut [u32],
    marks: &mut [u8],
) -> Result<(), Refusal>
    requires words_at { WordsAt dossier.now x.tests x.inputs x.count × SheetLent sheet.now x.inputs y }
    requires label_len { (length label.old ≡ 65536) × (length first.old ≡ 65536) × (length next.old ≡ 65536) × (length value.old ≡ 65536) × (length marks.old ≡ 65536) }
    ensures value { result ≡ finding_of (pair_rule (tests_in dossier.now x) (records_in sheet.now y)) }
    ensures filed { result ≡ Ok tt → Filed sheet.now x.inputs (records_in sheet.now y) label.new first.new next.new value.new }
{
    let repeated = put_records(
        sheet, y.records, x.inputs, y.count, label, first, next, value,
    );
    if let Some(record) = repeated {
        return Err(Refusal::Repeated(record));
    }
    let nodes = Nodes { label, first, next };
    find_unpaired(dossier, x, sheet, y, nodes, value, marks)
}
