// KISS2 text read into a unit (document 02, L2; docs/KISS2.md).
#![tactic(auto)]

ghost use Rattle.std.specs.Prelude.{◌≡◌, List, ℕ, ◌^◌, ◌≤◌};
ghost use Rattle.rules.specs.Kiss2.{Says};
ghost use Rattle.rules.specs.Promises.{ReadKiss2Promise};
ghost use Rattle.importer_reading.specs.Held.{Held};
ghost use Rattle.importer.specs.Finished.{completed, finished, AnsweredAs, Ranked, SomeRanked, SomeRead};

use importer_counts::is_whole;
use importer_ranks::{give_ranks, no_ranks};
use importer_reading::{Progress, read_lines};
use importer_terms::no_entries;
use importer_unit::{find_silent, number_states, write_unit};
use rules::{Fault, File, Imported, Refusal};

// The most bytes of a text.
const MOST_TEXT: usize = 65535;

// Two to the power that `.i` says.
fn input_count(bits: usize) -> usize
    requires { bits ≤ 4 }
    ensures { result ≡ 2 ^ bits }
{
    1usize << bits
}

// The unit, once nothing is lacking: 21, 17, or its bytes. Whether an entry is silent is asked before whether there is room.
fn write_complete(
    nexts: &[u8],
    outputs: &[u8],
    ranks: &[u8],
    states: usize,
    inputs: usize,
    out: &mut [u8],
) -> Imported
    requires { SomeRanked nexts.now outputs.now ranks.now states inputs }
    ensures { (said : List Says) → Ranked said nexts.now outputs.now ranks.now states inputs → AnsweredAs (completed said out.old) out.old out.new result }
{
    let room = out.len();
    let size = 6 + 2 * (states * inputs);
    let numbers = number_states(ranks, states);
    if let Some((state, input)) = find_silent(nexts, &numbers, states, inputs) {
        return Imported::Refused(Refusal::Incomplete(state, input));
    }
    if room < size {
        return Imported::Refused(Refusal::NoRoom(size));
    }
    write_unit(nexts, outputs, ranks, &numbers, states, inputs, out);
    Imported::Written(size)
}

// What comes of the lines, where `behind` is the number of the line behind the last.
fn finish(
    x: Progress,
    behind: usize,
    nexts: &[u8],
    outputs: &[u8],
    ranks: &mut [u8],
    out: &mut [u8],
) -> Imported
    requires { SomeRead x nexts.now outputs.now ranks.old }
    ensures { (said : List Says) (names lengths : List ℕ) → Held said x names lengths nexts.now outputs.now ranks.old → AnsweredAs (finished said behind out.old) out.old out.new result }
{
    let states = x.names;
    if !is_whole(x.counts, states) {
        return Imported::Refused(Refusal::BadLine(behind));
    }
    give_ranks(ranks, states, x.ranked);
    // A whole text has said how many bits an input has, so that the 0 is never taken.
    let inputs = input_count(x.counts.input_bits.unwrap_or(0));
    write_complete(nexts, outputs, ranks, states, inputs, out)
}

// Reads a text into a unit.
pub fn read_kiss2(text: &[u8], out: &mut [u8]) -> Imported
    ensures { ReadKiss2Promise text.now out.old result out.new }
{
    if MOST_TEXT < text.len() {
        return Imported::Refused(Refusal::Malformed(Fault::TooLong, File::Text, 0));
    }
    let mut names = [0u8; 1024];
    let mut lengths = [0u8; 64];
    let mut nexts = no_entries();
    let mut outputs = no_entries();
    let mut ranks = no_ranks();
    match read_lines(
        text,
        &mut names,
        &mut lengths,
        &mut nexts,
        &mut outputs,
        &mut ranks,
    ) {
        Ok((x, behind)) => finish(x, behind, &nexts, &outputs, &mut ranks, out),
        Err(refusal) => Imported::Refused(refusal),
    }
}
