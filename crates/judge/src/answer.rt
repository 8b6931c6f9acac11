// The judge's answers (document 01, "Judge"): all of check, the sheet's 1, 2, 5, 6, then 12 to 14, then the verdict.
ghost use Rattle.std.specs.Prelude.{◌≡◌, length};
ghost use Rattle.rules.specs.Operations.{judged_part};
ghost use Rattle.rules.specs.Promises.{JudgePromise, JudgeWordPromise};
ghost use Rattle.judge.specs.Verdicts.{Handed, Matched, examined_of};

use crate::{Examined, WordPart};
use checker::accept;
use judge_pairing::pair;
use judge_verdict::find_deviating;
use reader::{DossierShape, SheetShape, read_sheet};
use rules::Judged;
use trie::Nodes;
use trie_filing::NODES;
use walker::word_length;

// The verdict, where the records belong to the dossier.
fn examine_matched(
    dossier: &[u8],
    x: DossierShape,
    sheet: &[u8],
    nodes: Nodes,
    value: &[u32],
) -> Examined
    requires { Matched dossier.now x sheet.now nodes.label.now nodes.first.now nodes.next.now value.now }
    ensures { result ≡ examined_of dossier.now sheet.now }
{
    match find_deviating(dossier, x, sheet, nodes, value) {
        None => Examined::Agrees,
        Some((test, step, word)) => Examined::Deviates(
            test,
            step,
            word + 1,
            word_length(dossier, word),
        ),
    }
}

// Pairing and verdict, over arrays with a place for each node.
fn examine_in(
    dossier: &[u8],
    x: DossierShape,
    sheet: &[u8],
    y: SheetShape,
    label: &mut [u8],
    first: &mut [u16],
    next: &mut [u16],
    value: &mut [u32],
    marks: &mut [u8],
) -> Examined
    requires handed { Handed dossier.now x sheet.now y }
    requires label_len { (length label.old ≡ 65536) × (length first.old ≡ 65536) × (length next.old ≡ 65536) × (length value.old ≡ 65536) × (length marks.old ≡ 65536) }
    ensures { result ≡ examined_of dossier.now sheet.now }
{
    match pair(dossier, x, sheet, y, label, first, next, value, marks) {
        Err(r) => Examined::Refused(r),
        Ok(()) => examine_matched(dossier, x, sheet, Nodes { label, first, next }, value),
    }
}

// Pairing and verdict of an accepted dossier and a well-formed sheet.
pub fn examine_both(dossier: &[u8], x: DossierShape, sheet: &[u8], y: SheetShape) -> Examined
    requires { Handed dossier.now x sheet.now y }
    ensures { result ≡ examined_of dossier.now sheet.now }
{
    let mut label = [0; NODES];
    let mut first = [0; NODES];
    let mut next = [0; NODES];
    let mut value = [0; NODES];
    let mut marks = [0; NODES];
    examine_in(
        dossier, x, sheet, y, &mut label, &mut first, &mut next, &mut value, &mut marks,
    )
}

// All that the judge answers.
fn examine(dossier: &[u8], sheet: &[u8]) -> Examined
    ensures { result ≡ examined_of dossier.now sheet.now }
{
    match accept(dossier) {
        Ok(x) => match read_sheet(sheet, x.inputs) {
            Ok(y) => examine_both(dossier, x, sheet, y),
            Err(r) => Examined::Refused(r),
        },
        Err(r) => Examined::Refused(r),
    }
}

pub fn judge(dossier: &[u8], sheet: &[u8]) -> Judged
    ensures { JudgePromise dossier.now sheet.now result }
{
    match examine(dossier, sheet) {
        Examined::Agrees => Judged::Agrees,
        Examined::Deviates(test, step, _, _) => Judged::Deviates(test, step),
        Examined::Refused(r) => Judged::Refused(r),
    }
}

// Where the inputs of the test that deviates stand in the dossier, and how many they are. With every other answer both are 0.
pub fn failing_part(dossier: &[u8], sheet: &[u8]) -> WordPart
    ensures { (result.place ≡ (judged_part dossier.now sheet.now).place) × (result.size ≡ (judged_part dossier.now sheet.now).size) }
{
    match examine(dossier, sheet) {
        Examined::Agrees => WordPart { place: 0, size: 0 },
        Examined::Deviates(_, _, place, size) => WordPart { place, size },
        Examined::Refused(_) => WordPart { place: 0, size: 0 },
    }
}

// The inputs of the test that deviates, handed back as a part of the dossier and never of the sheet. With every other answer
// the part is empty.
pub fn failing_word<'a, 'b>(dossier: &'a [u8], sheet: &'b [u8]) -> &'a [u8]
    ensures { JudgeWordPromise dossier.now sheet.now result.now }
{
    let part = failing_part(dossier, sheet);
    let start = part.place;
    let end = start + part.size;
    &dossier[start..end]
}
