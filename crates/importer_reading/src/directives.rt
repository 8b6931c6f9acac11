// Lines that say no term.
ghost use Rattle.std.specs.Prelude.{◌≡◌, List, ℕ, ◌-◌, ◌≤◌, ◌<◌, length};
ghost use Rattle.rules.specs.Sizes.{most_states};
ghost use Rattle.rules.specs.Kiss2.{Says, number, reset, end, most_of};
ghost use Rattle.importer_lines.specs.Parts.{bytes_at, FieldIn};
ghost use Rattle.importer_says.specs.Directives.{name_of};
ghost use Rattle.importer_reading.specs.Both.{SomeNames};
ghost use Rattle.importer_reading.specs.Held.{Held, Stepped};

use crate::{LineFault, Progress};
use importer_counts::{count_end, count_number, count_reset};
use importer_lines::Part;
use importer_names::number_name;
use importer_ranks::give_rank;
use importer_says::Directive;

pub fn follow_number(x: Progress, directive: Directive, n: usize) -> Result<Progress, LineFault>
    requires { (0 < n) × (n ≤ most_of (name_of directive)) }
    ensures { (before : List Says) (names lengths nexts outputs ranks : List ℕ) → Held before x names lengths nexts outputs ranks → Stepped before (number (name_of directive) n) names lengths nexts outputs ranks result }
{
    let Some(counts) = count_number(x.counts, directive, n) else {
        return Err(LineFault::Bad);
    };
    Ok(Progress { counts, ..x })
}

pub fn follow_end(x: Progress) -> Result<Progress, LineFault>
    ensures { (before : List Says) (names lengths nexts outputs ranks : List ℕ) → Held before x names lengths nexts outputs ranks → Stepped before end names lengths nexts outputs ranks result }
{
    let Some(counts) = count_end(x.counts) else {
        return Err(LineFault::Bad);
    };
    Ok(Progress { counts, ..x })
}

// The reset state is the first name, and has the first number.
pub fn follow_reset(
    text: &[u8],
    part: Part,
    names: &mut [u8],
    lengths: &mut [u8],
    ranks: &mut [u8],
    x: Progress,
) -> Result<Progress, LineFault>
    requires field_in { FieldIn text.now part × (part.end - part.start ≤ 16) }
    requires some_names { SomeNames names.old lengths.old x.names }
    requires ranks_len { (length ranks.old ≡ most_states) × (x.ranked < 128) }
    ensures { (before : List Says) (nexts outputs : List ℕ) → Held before x names.old lengths.old nexts outputs ranks.old → Stepped before (reset (bytes_at text.now part)) names.new lengths.new nexts outputs ranks.new result }
{
    let Some(counts) = count_reset(x.counts) else {
        return Err(LineFault::Bad);
    };
    let Some((number, count)) = number_name(text, part, names, lengths, x.names) else {
        return Err(LineFault::Bad);
    };
    Ok(Progress {
        counts,
        names: count,
        ranked: give_rank(ranks, number, x.ranked),
    })
}
