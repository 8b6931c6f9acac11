// All lines of a text.
ghost use Rattle.std.specs.Prelude.{◌≡◌, List, [], ◌≤◌, length};
ghost use Rattle.rules.specs.Sizes.{most_states};
ghost use Rattle.rules.specs.Kiss2.{Says, line_says, most_text_bytes};
ghost use Rattle.importer_lines.specs.Parts.{part_at};
ghost use Rattle.importer_counts.specs.Counts.{CountsAt};
ghost use Rattle.importer_terms.specs.Entries.{unsaid};
ghost use Rattle.importer_ranks.specs.Ranks.{unranked};
ghost use Rattle.importer_reading.specs.Held.{Held, SomeHeld, Stepped, stepped};
ghost use Rattle.importer_reading.specs.Lines.{refusal_of, ReadAs};

use crate::directives::{follow_end, follow_number, follow_reset};
use crate::terms::follow_term;
use crate::{LineFault, Progress, TermParts};
use importer_counts::no_counts;
use importer_lines::line_end;
use importer_says::{LineSaid, line_said};
use rules::Refusal;

// What has been said, with one line more; a line that is at fault leaves it as it was.
fn take(x: &mut Progress, said: Result<Progress, LineFault>) -> Result<(), LineFault>
    ensures { stepped result x.new ≡ said }
{
    *x = said?;
    Ok(())
}

// One line more, in text[from..end]. What has been said is changed in place, so that a line that says nothing copies nothing.
fn follow_line(
    text: &[u8],
    from: usize,
    end: usize,
    names: &mut [u8],
    lengths: &mut [u8],
    nexts: &mut [u8],
    outputs: &mut [u8],
    ranks: &mut [u8],
    x: &mut Progress,
) -> Result<(), LineFault>
    requires from_le_end { (from ≤ end) × (end ≤ length text.now) }
    requires some_held { SomeHeld x.old names.old lengths.old nexts.old outputs.old ranks.old }
    ensures { (before : List Says) → Held before x.old names.old lengths.old nexts.old outputs.old ranks.old → Stepped before (line_says (part_at text.now from end)) names.new lengths.new nexts.new outputs.new ranks.new (stepped result x.new) }
{
    match line_said(text, from, end) {
        LineSaid::Skipped => Ok(()),
        LineSaid::Number(directive, n) => take(x, follow_number(*x, directive, n)),
        LineSaid::Reset(part) => take(x, follow_reset(text, part, names, lengths, ranks, *x)),
        LineSaid::Term(cube, current, next, output) => {
            let term = TermParts {
                cube,
                current,
                next,
                output,
            };
            take(
                x,
                follow_term(text, term, names, lengths, nexts, outputs, ranks, *x),
            )
        }
        LineSaid::End => take(x, follow_end(*x)),
        LineSaid::Bad => Err(LineFault::Bad),
    }
}

// 19 or 20 of a line.
fn refusal_of(fault: LineFault, line: usize) -> Refusal
    ensures { result ≡ refusal_of fault line }
{
    match fault {
        LineFault::Bad => Refusal::BadLine(line),
        LineFault::Contradicts => Refusal::Contradiction(line),
    }
}

// Before the first line.
fn nothing_said() -> Progress
    ensures { CountsAt [] result.counts × (result.names ≡ 0) × (result.ranked ≡ 0) }
{
    Progress {
        counts: no_counts(),
        names: 0,
        ranked: 0,
    }
}

// What was said, and the number of the line behind the last. Lines are counted from 1. The tables are empty at first.
pub fn read_lines(
    text: &[u8],
    names: &mut [u8],
    lengths: &mut [u8],
    nexts: &mut [u8],
    outputs: &mut [u8],
    ranks: &mut [u8],
) -> Result<(Progress, usize), Refusal>
    requires text_len_bound { length text.now ≤ most_text_bytes }
    requires names_len { (length names.old ≡ 1024) × (length lengths.old ≡ most_states) }
    requires nexts_value { (nexts.old ≡ unsaid) × (outputs.old ≡ unsaid) × (ranks.old ≡ unranked) }
    ensures { ReadAs text.now names.new lengths.new nexts.new outputs.new ranks.new result }
{
    let mut x = nothing_said();
    let mut line = 1;
    let mut from = 0;
    // Each line begins behind the end of the one before it.
    while from < text.len() {
        let end = line_end(text, from);
        if let Err(fault) = follow_line(
            text, from, end, names, lengths, nexts, outputs, ranks, &mut x,
        ) {
            return Err(refusal_of(fault, line));
        }
        line += 1;
        from = end + 1;
    }
    Ok((x, line))
}
