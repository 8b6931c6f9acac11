// The line of a run.
ghost use Rattle.std.specs.Prelude.{◌≡◌, [], ◌∷◌, ◌+◌, ◌*◌, ◌≤◌, ◌<◌, length, replicate};
ghost use Rattle.rules.specs.Words.{Valid};
ghost use Rattle.rules.specs.Line.{decimal, run_line};
ghost use Rattle.checker.specs.Accepted.{AcceptedAt};
ghost use Rattle.line_writer.specs.Puts.{Puts, Closes, most_digits};
ghost use Rattle.line.specs.Lines.{line_room, passes_line, fails_of, UnitAt, FailingAt, RunLinePromise};

use crate::refused::write_refusal;
use crate::{LINE_ROOM, Line};
use checker::accept;
use line_writer::{add_decimal, add_hex, put_line_feed, put_text};
use reader::{DossierShape, UnitShape, read_unit};
use rules::{GoldenState, Output, Ran, UnitState};
use runner::try_unit;
use walker::{Table, word_inputs};
use walker_lookup::{output_at, word_place};

fn write_passes(count: usize, out: &mut [u8]) -> usize
    requires { line_room ≤ length out.old }
    ensures { Puts out.old 0 (passes_line count) out.new result }
{
    let said = put_text(b"PASSES", out, 0);
    let counted = add_decimal(count, out, said);
    put_line_feed(out, counted)
}

// The golden's output and the unit's, which end a line.
fn put_outputs(expected: Output, given: Output, out: &mut [u8], at: usize) -> usize
    requires { at + 3 + 2 * most_digits ≤ length out.old }
    ensures { Closes out.old at (decimal expected.0 ∷ decimal given.0 ∷ []) out.new result }
{
    let answered = add_decimal(expected.number() as usize, out, at);
    let compared = add_decimal(given.number() as usize, out, answered);
    put_line_feed(out, compared)
}

// The test's place, the step, the test, and the outputs of golden and unit there.
fn write_fails(
    place: usize,
    step: usize,
    word: &[u8],
    expected: Output,
    given: Output,
    out: &mut [u8],
) -> usize
    requires line_room_in_bounds { line_room ≤ length out.old }
    requires word_len_bound { (length word.now < 256) × Valid 16 word.now }
    ensures { Puts out.old 0 (fails_of place step word.now expected.0 given.0) out.new result }
{
    let said = put_text(b"FAILS", out, 0);
    let placed = add_decimal(place, out, said);
    let stepped = add_decimal(step, out, placed);
    let spelled = add_hex(word, out, stepped);
    put_outputs(expected, given, out, spelled)
}

// The test that fails at a step, looked up in the dossier, and the outputs looked up in the tables.
fn write_failing(
    golden: &[u8],
    x: DossierShape,
    unit: &[u8],
    y: UnitShape,
    place: usize,
    step: usize,
    out: &mut [u8],
) -> usize
    requires failing_at { FailingAt golden.now x unit.now y place step }
    requires line_room_in_bounds { line_room ≤ length out.old }
    ensures { Puts out.old 0 (run_line golden.now unit.now) out.new result }
{
    let word = word_place(golden, x.tests, x.inputs, x.count, place);
    let machine: Table<'_, GoldenState> = Table::standing(golden, x.table, x.inputs, x.states);
    let tried: Table<'_, UnitState> = Table::standing(unit, y.table, y.inputs, y.states);
    let expected = output_at(&machine, golden, word, step);
    let given = output_at(&tried, golden, word, step);
    write_fails(place, step, word_inputs(golden, word), expected, given, out)
}

fn write_verdict(golden: &[u8], x: DossierShape, unit: &[u8], y: UnitShape, out: &mut [u8]) -> usize
    requires accepted_at { AcceptedAt golden.now x }
    requires unit_at { UnitAt unit.now y }
    requires line_room_in_bounds { line_room ≤ length out.old }
    ensures { Puts out.old 0 (run_line golden.now unit.now) out.new result }
{
    match try_unit(golden, x, unit) {
        Ran::Passes(count) => write_passes(count, out),
        Ran::Fails(place, step) => write_failing(golden, x, unit, y, place, step, out),
        Ran::Refused(r) => write_refusal(r, out),
    }
}

// The unit is read here for its table's place, and once more where it is tried.
fn write_trial(golden: &[u8], x: DossierShape, unit: &[u8], out: &mut [u8]) -> usize
    requires accepted_at { AcceptedAt golden.now x }
    requires line_room_in_bounds { line_room ≤ length out.old }
    ensures { Puts out.old 0 (run_line golden.now unit.now) out.new result }
{
    match read_unit(unit) {
        Ok(y) => write_verdict(golden, x, unit, y, out),
        Err(r) => write_refusal(r, out),
    }
}

fn write_run_line(golden: &[u8], unit: &[u8], out: &mut [u8]) -> usize
    requires { line_room ≤ length out.old }
    ensures { Puts out.old 0 (run_line golden.now unit.now) out.new result }
{
    match accept(golden) {
        Ok(x) => write_trial(golden, x, unit, out),
        Err(r) => write_refusal(r, out),
    }
}

// A function of its own, so that no goal of another function writes the zeros out.
pub fn no_text() -> [u8; LINE_ROOM]
    ensures { result ≡ replicate line_room 0 }
{
    [0; LINE_ROOM]
}

// The line that the program `run` prints of the bytes of its two files.
pub fn run_line(golden: &[u8], unit: &[u8]) -> Line
    ensures { RunLinePromise golden.now unit.now result }
{
    let mut bytes = no_text();
    let length = write_run_line(golden, unit, &mut bytes);
    Line { bytes, length }
}
