// The line of each operation (docs/LINES.md): the answer of documents 01 and 02, and every value that it has.
#![tactic(auto)]

mod plain;

ghost use Rattle.std.specs.Prelude.{◌≡◌, [], ◌∷◌, ◌≤◌, length};
ghost use Rattle.rules.specs.Answers.{refusing};
ghost use Rattle.rules.specs.Line.{decimal, line};
ghost use Rattle.theory.specs.Bounds.{Fits};
ghost use Rattle.line.specs.Lines.{Says};
ghost use Rattle.bureau_refusals.specs.Values.{refused_line};
ghost use Rattle.bureau_lines.specs.Lines.{check_line, cost_line, BuildLinePromise, FindLinePromise, ImportLinePromise, trial_line, telling_room, compare_line};

use builder::build;
use bureau_refusals::refused_line;
use checker::check;
use comparer::compare;
use finder::find;
use importer::read_kiss2;
use line::{Line, run_line};
pub use plain::plain_line;
use plain::{number_line, numbers_line, word_line};
use rules::{Built, Checked, Compared, Costed, Found, Imported, Ran, Refusal};
use runner::{cost, run};

// The line of build, find or the import, and how many bytes of its output it wrote: none where it refuses.
#[derive(Clone, Copy)]
pub struct BuiltLine {
    pub line: Line,
    pub length: usize,
}

pub fn check_line(dossier: &[u8]) -> Line
    ensures { Says (check_line dossier.now) result }
{
    match check(dossier) {
        Checked::Accepted => plain_line(b"ACCEPTED"),
        Checked::Refused(r) => refused_line(r),
    }
}

pub fn cost_line(dossier: &[u8]) -> Line
    ensures { Says (cost_line dossier.now) result }
{
    match cost(dossier) {
        Costed::Cost(tests, inputs) => numbers_line(b"COST", tests, inputs),
        Costed::Refused(r) => refused_line(r),
    }
}

// So many bytes were written.
fn written_line(fixed: &[u8], count: usize) -> BuiltLine
    requires { length fixed.now ≤ 8 }
    ensures says { Says (line (fixed.now ∷ decimal count ∷ [])) result.line }
    ensures long { result.length ≡ count }
{
    BuiltLine {
        line: number_line(fixed, count),
        length: count,
    }
}

// Nothing was written.
fn unwritten_line(r: Refusal) -> BuiltLine
    requires { Fits (refusing r) }
    ensures says { Says (refused_line r) result.line }
    ensures none { result.length ≡ 0 }
{
    BuiltLine {
        line: refused_line(r),
        length: 0,
    }
}

pub fn build_line(dossier: &[u8], out: &mut [u8]) -> BuiltLine
    ensures { BuildLinePromise dossier.now out.old result out.new }
{
    match build(dossier, out) {
        Built::Written(length) => written_line(b"BUILT", length),
        Built::Refused(r) => unwritten_line(r),
    }
}

pub fn find_line(unit: &[u8], bound: u8, out: &mut [u8]) -> BuiltLine
    ensures { FindLinePromise unit.now bound out.old result out.new }
{
    match find(unit, bound, out) {
        Found::Written(length) => written_line(b"FOUND", length),
        Found::Refused(r) => unwritten_line(r),
    }
}

pub fn import_line(text: &[u8], out: &mut [u8]) -> BuiltLine
    ensures { ImportLinePromise text.now out.old result out.new }
{
    match read_kiss2(text, out) {
        Imported::Written(length) => written_line(b"IMPORTED", length),
        Imported::Refused(r) => unwritten_line(r),
    }
}

// FAILS has the line that the program `run` prints.
pub fn trial_line(dossier: &[u8], unit: &[u8]) -> Line
    ensures { Says (trial_line dossier.now unit.now) result }
{
    match run(dossier, unit) {
        Ran::Passes(tests) => number_line(b"PASSES", tests),
        Ran::Fails(_, _) => run_line(dossier, unit),
        Ran::Refused(r) => refused_line(r),
    }
}

fn telling_room() -> [u8; 127]
    ensures { result ≡ telling_room }
{
    [0; 127]
}

pub fn compare_line(dossier: &[u8], unit: &[u8]) -> Line
    ensures { Says (compare_line dossier.now unit.now) result }
{
    let mut room = telling_room();
    match compare(dossier, unit, &mut room) {
        Compared::Equal => plain_line(b"EQUAL"),
        Compared::Differs(length) => word_line(b"DIFFERS", &room[..length]),
        Compared::Refused(r) => refused_line(r),
    }
}
