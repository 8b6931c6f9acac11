// A line that says a term.
ghost use Rattle.std.specs.Prelude.{◌≡◌, List, ℕ, ◌-◌, ◌<◌, length};
ghost use Rattle.rules.specs.Sizes.{most_states};
ghost use Rattle.rules.specs.Kiss2.{Field, Term, Says, term};
ghost use Rattle.importer_terms.specs.Entries.{EntriesAt, TermsOver, TermIn, TermOver};
ghost use Rattle.importer_reading.specs.Held.{Held, SomeSaid, Stepped};
ghost use Rattle.importer_reading.specs.Terms.{TermFields, term_at, NamedTermAs, Ready, EnteredAs};

use crate::naming::number_both;
use crate::{LineFault, Progress, TermParts};
use importer_counts::{Counts, allows, count_term};
use importer_lines::Part;
use importer_ranks::give_rank;
use importer_terms::{NumberedTerm, contradicts, output_value, put_term};

fn size(part: Part) -> usize
    requires { part.start < part.end }
    ensures { result ≡ part.end - part.start }
{
    part.end - part.start
}

// Rules 6, 9, 10 and 11: the term among the lines before it, and its names among theirs. What was counted with it, the term, and how many
// names there are then; nothing where it may not follow.
fn name_term(
    text: &[u8],
    parts: TermParts,
    names: &mut [u8],
    lengths: &mut [u8],
    x: Progress,
) -> Option<(Counts, NumberedTerm, usize)>
    requires term_fields { TermFields text.now parts }
    requires some_said { SomeSaid x names.old lengths.old }
    ensures named_term_as { (before : List Says) (nexts outputs ranks : List ℕ) → Held before x names.old lengths.old nexts outputs ranks → NamedTermAs text.now before (term_at text.now parts) names.new lengths.new result }
    ensures ready { Ready text.now result }
{
    let counts = count_term(x.counts, size(parts.cube), size(parts.output))?;
    let (current, next, all) = number_both(
        text,
        parts.current,
        parts.next,
        names,
        lengths,
        x.names,
    )?;
    if !allows(counts.state_count, all) {
        return None;
    }
    let cube = parts.cube;
    let output = output_value(text, parts.output);
    let term = NumberedTerm {
        cube,
        current,
        next,
        output,
    };
    Some((counts, term, all))
}

// Rule 12: whether the term contradicts an earlier one. Its entries are written where it does not.
fn enter_term(text: &[u8], term: NumberedTerm, nexts: &mut [u8], outputs: &mut [u8]) -> bool
    requires term_in { TermIn text.now term }
    requires nexts_len { (length nexts.old ≡ 1024) × (length outputs.old ≡ 1024) }
    ensures { (names : List Field) (bits : ℕ) (terms : List Term) (t : Term) → EntriesAt nexts.old outputs.old names terms → TermsOver names bits terms → TermOver text.now term names bits t → EnteredAs nexts.new outputs.new names terms t result }
{
    if contradicts(text, term, nexts, outputs) {
        return true;
    }
    put_term(text, term, nexts, outputs);
    false
}

// 19 comes before 20 on one line. A current state has the next number, unless it has one.
pub fn follow_term(
    text: &[u8],
    parts: TermParts,
    names: &mut [u8],
    lengths: &mut [u8],
    nexts: &mut [u8],
    outputs: &mut [u8],
    ranks: &mut [u8],
    x: Progress,
) -> Result<Progress, LineFault>
    requires term_fields { TermFields text.now parts }
    requires some_said { SomeSaid x names.old lengths.old }
    requires nexts_len { (length nexts.old ≡ 1024) × (length outputs.old ≡ 1024) }
    requires ranks_len { (length ranks.old ≡ most_states) × (x.ranked < 128) }
    ensures { (before : List Says) → Held before x names.old lengths.old nexts.old outputs.old ranks.old → Stepped before (term (term_at text.now parts)) names.new lengths.new nexts.new outputs.new ranks.new result }
{
    let Some((counts, numbered, all)) = name_term(text, parts, names, lengths, x) else {
        return Err(LineFault::Bad);
    };
    if enter_term(text, numbered, nexts, outputs) {
        return Err(LineFault::Contradicts);
    }
    Ok(Progress {
        counts,
        names: all,
        ranked: give_rank(ranks, numbered.current, x.ranked),
    })
}
