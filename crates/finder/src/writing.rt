// What find writes (document 02, L1): the dossier without tests, once it is known that there is room for all of it.
ghost use Rattle.std.specs.Prelude.{◌≡◌, [], ◌∷◌, ◌++◌, ◌+◌, ◌-◌, ◌≤◌, ◌<◌, length, drop};
ghost use Rattle.rules.specs.Files.{UnitData, count_bytes, words_bytes};
ghost use Rattle.rules.specs.Find.{found_cover};
ghost use Rattle.rules.specs.Operations.{overwritten};
ghost use Rattle.theory.specs.Wrote.{Wrote};
ghost use Rattle.finder_access.specs.Reached.{Reaches};
ghost use Rattle.finder_separators.specs.Kept.{words_from, WholeAt};
ghost use Rattle.finder.specs.Drafts.{CoverRoom, Fitting, draft_bytes};

use finder_access::write_cover;
use finder_separators::write_separators;
use numbers::wide;
use reader::UnitShape;
use texts::copy;

// A unit's table stands behind a count and two numbers.
const UNIT_TABLE: usize = 4;

// A count, low byte first. The answer is the place after it.
fn write_count(out: &mut [u8], at: usize, count: usize) -> usize
    requires { (at + 2 ≤ length out.old) × (count < 65536) }
    ensures { Wrote out.old at (count_bytes count) out.new result }
{
    out[at] = (count % 256) as u8;
    out[at + 1] = (count / 256) as u8;
    at + 2
}

// The three numbers: the bound is written as it was passed, so that 0 stays 0.
fn write_numbers(inputs: u8, states: u8, bound: u8, out: &mut [u8]) -> usize
    requires { 5 ≤ length out.old }
    ensures { Wrote out.old 0 (count_bytes 3 ++ (inputs ∷ states ∷ bound ∷ [])) out.new result }
{
    let at = write_count(out, 0, 3);
    out[at] = inputs;
    out[at + 1] = states;
    out[at + 2] = bound;
    at + 3
}

// The table, byte for byte as it stands in the unit.
fn write_table(unit: &[u8], out: &mut [u8], at: usize) -> usize
    requires { (4 ≤ length unit.now) × (at + (length unit.now - 4) ≤ length out.old) }
    ensures { Wrote out.old at (drop 4 unit.now) out.new result }
{
    let size = unit.len() - UNIT_TABLE;
    copy(&unit[UNIT_TABLE..], size, out, at);
    at + size
}

// The access words of all states, behind their count.
fn write_cover_section(queue: &[u16], places: &[u8], states: u8, out: &mut [u8], at: usize) -> usize
    requires { CoverRoom queue.now places.now states at (length out.old) }
    ensures { (u : UnitData) → Reaches u queue.now places.now → u.states ≡ states → Wrote out.old at (words_bytes (found_cover u)) out.new result }
{
    let next = write_count(out, at, wide(states));
    write_cover(queue, places, states, out, next)
}

// The separating words, behind their count.
fn write_separating_section(
    text: &[u8],
    kept: &[u16],
    count: usize,
    out: &mut [u8],
    at: usize,
) -> usize
    requires whole_at { WholeAt text.now kept.now count }
    requires count_in_bounds { at + length (words_bytes (words_from text.now kept.now 0 count)) ≤ length out.old }
    ensures { Wrote out.old at (words_bytes (words_from text.now kept.now 0 count)) out.new result }
{
    let next = write_count(out, at, count);
    write_separators(text, kept, count, out, next)
}

// The whole dossier. It has no tests.
pub fn write_draft(
    unit: &[u8],
    x: UnitShape,
    bound: u8,
    queue: &[u16],
    places: &[u8],
    text: &[u8],
    kept: &[u16],
    count: usize,
    out: &mut [u8],
)
    requires { Fitting unit.now x bound queue.now places.now text.now kept.now count (length out.old) }
    ensures { out.new ≡ overwritten (draft_bytes unit.now bound) out.old }
{
    let states = x.states;
    let table = write_numbers(x.inputs, states, bound, out);
    let cover = write_table(unit, out, table);
    let separating = write_cover_section(queue, places, states, out, cover);
    let tests = write_separating_section(text, kept, count, out, separating);
    write_count(out, tests, 0);
}
