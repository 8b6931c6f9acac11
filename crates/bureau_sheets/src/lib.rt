// The line of a judged sheet (docs/LINES.md): AGREES, DEVIATES with the test and both outputs, or a refusal.
#![tactic(auto)]

ghost use Rattle.std.specs.Prelude.{◌≡◌, true, ◌≤◌, length};
ghost use Rattle.rules.specs.Words.{Valid, is_in};
ghost use Rattle.reader.specs.Places.{word_at, records_at, RecordsAt};
ghost use Rattle.walker.specs.Walks.{Whole};
ghost use Rattle.judge.specs.Verdicts.{Handed};
ghost use Rattle.judge_records.specs.Filed.{words_of};
ghost use Rattle.line_writer.specs.Puts.{Puts};
ghost use Rattle.line.specs.Lines.{line_room};
ghost use Rattle.line.specs.Lines.{Says};
ghost use Rattle.bureau_sheets.specs.Judged.{deviates_of, judge_line, RecordFor, DeviatingAt};

use bureau_lines::plain_line;
use bureau_refusals::{add_word, put_two, refused_line};
use checker::accept;
use judge::{Examined, examine_both, failing_word};
use line::{Line, no_text};
use line_writer::{add_decimal, put_text};
use reader::{DossierShape, SheetShape, read_sheet};
use rules::{GoldenState, Output};
use walker::{Table, record_end, recorded_output};
use walker_lookup::{output_at, same_word, word_place};

// The place of the record that has a word of the dossier. There is one, so the search ends.
fn record_place(
    dossier: &[u8],
    word: usize,
    sheet: &[u8],
    first: usize,
    inputs: u8,
    count: usize,
) -> usize
    requires whole { Whole dossier.now word }
    requires records_at { RecordsAt sheet.now first inputs count }
    requires count_value { is_in (word_at dossier.now word) (words_of (records_at sheet.now first count)) ≡ true }
    ensures { RecordFor sheet.now (records_at sheet.now first count) (word_at dossier.now word) result }
{
    let mut place = first;
    while !same_word(sheet, place, dossier, word) {
        place = record_end(sheet, place);
    }
    place
}

// The test's place, the step, the test, the golden's output there and the one that was recorded.
fn write_deviates(
    place: usize,
    step: usize,
    word: &[u8],
    expected: Output,
    recorded: Output,
    out: &mut [u8],
) -> usize
    requires line_room_in_bounds { line_room ≤ length out.old }
    requires word_len_bound { (length word.now ≤ 200) × Valid 16 word.now }
    ensures { Puts out.old 0 (deviates_of place step word.now expected.0 recorded.0) out.new result }
{
    let said = put_text(b"DEVIATES", out, 0);
    let placed = add_decimal(place, out, said);
    let stepped = add_decimal(step, out, placed);
    let spelt = add_word(word, out, stepped);
    put_two(
        expected.number() as usize,
        recorded.number() as usize,
        out,
        spelt,
    )
}

fn deviates_line(place: usize, step: usize, word: &[u8], expected: Output, recorded: Output) -> Line
    requires { (length word.now ≤ 200) × Valid 16 word.now }
    ensures { Says (deviates_of place step word.now expected.0 recorded.0) result }
{
    let mut bytes = no_text();
    let length = write_deviates(place, step, word, expected, recorded, &mut bytes);
    Line { bytes, length }
}

// The test that deviates, as the judge hands it back, and the outputs looked up in the golden's table and in the sheet.
fn deviating_line(
    dossier: &[u8],
    x: DossierShape,
    sheet: &[u8],
    y: SheetShape,
    place: usize,
    step: usize,
) -> Line
    requires { DeviatingAt dossier.now x sheet.now y place step }
    ensures { Says (judge_line dossier.now sheet.now) result }
{
    let word = word_place(dossier, x.tests, x.inputs, x.count, place);
    let golden: Table<'_, GoldenState> = Table::standing(dossier, x.table, x.inputs, x.states);
    let expected = output_at(&golden, dossier, word, step);
    let record = record_place(dossier, word, sheet, y.records, x.inputs, y.count);
    let recorded = recorded_output(sheet, record, step);
    deviates_line(
        place,
        step,
        failing_word(dossier, sheet),
        expected,
        recorded,
    )
}

fn examined_line(dossier: &[u8], x: DossierShape, sheet: &[u8], y: SheetShape) -> Line
    requires { Handed dossier.now x sheet.now y }
    ensures { Says (judge_line dossier.now sheet.now) result }
{
    match examine_both(dossier, x, sheet, y) {
        Examined::Agrees => plain_line(b"AGREES"),
        Examined::Deviates(place, step, _, _) => deviating_line(dossier, x, sheet, y, place, step),
        Examined::Refused(r) => refused_line(r),
    }
}

pub fn judge_line(dossier: &[u8], sheet: &[u8]) -> Line
    ensures { Says (judge_line dossier.now sheet.now) result }
{
    match accept(dossier) {
        Ok(x) => match read_sheet(sheet, x.inputs) {
            Ok(y) => examined_line(dossier, x, sheet, y),
            Err(r) => refused_line(r),
        },
        Err(r) => refused_line(r),
    }
}
