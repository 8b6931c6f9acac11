// Whether a term says something else than the entries that earlier terms say (docs/KISS2.md, rule 12).
ghost use Rattle.std.specs.Prelude.{◌≡◌, List, ℕ, ◌<◌, length};
ghost use Rattle.rules.specs.Lists.{any};
ghost use Rattle.rules.specs.Sizes.{most_inputs, most_states};
ghost use Rattle.rules.specs.Kiss2.{Field, Term, differ};
ghost use Rattle.importer_terms.specs.Entries.{says_else, is_against, EntriesAt, TermsOver, TermIn, TermOver};

use crate::NumberedTerm;
use crate::cubes::cube_has;
use crate::entries::entry_place;
use numbers::wide;
use rules::{Input, MOST_INPUTS};

// Whether an entry is there and says something else than a term.
fn says_else(mark: u8, value: u8, term: NumberedTerm) -> bool
    requires { term.next < most_states }
    ensures { result ≡ says_else mark value term }
{
    mark != 0 && (wide(mark) != term.next + 1 || value != term.output)
}

// Whether the cube has an input whose entry says something else.
fn is_against(text: &[u8], term: NumberedTerm, nexts: &[u8], outputs: &[u8], input: Input) -> bool
    requires term_in { TermIn text.now term × (input.0 < most_inputs) }
    requires nexts_len { (length nexts.now ≡ 1024) × (length outputs.now ≡ 1024) }
    ensures { result ≡ is_against text.now term nexts.now outputs.now input.0 }
{
    if !cube_has(text, term.cube, input) {
        return false;
    }
    let place = entry_place(term.current, input);
    says_else(nexts[place], outputs[place], term)
}

// Whether a term differs from an earlier one on a state and an input.
pub fn contradicts(text: &[u8], term: NumberedTerm, nexts: &[u8], outputs: &[u8]) -> bool
    requires term_in { TermIn text.now term }
    requires nexts_len { (length nexts.now ≡ 1024) × (length outputs.now ≡ 1024) }
    ensures { (names : List Field) (bits : ℕ) (terms : List Term) (t : Term) → EntriesAt nexts.now outputs.now names terms → TermsOver names bits terms → TermOver text.now term names bits t → result ≡ any (differ t) terms }
{
    for i in 0..MOST_INPUTS {
        if is_against(text, term, nexts, outputs, Input::numbered(i)) {
            return true;
        }
    }
    false
}
