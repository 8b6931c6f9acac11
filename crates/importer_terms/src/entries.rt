// The tables of the entries that the terms so far say, by state and input.
ghost use Rattle.std.specs.Prelude.{◌≡◌, List, [], ◌∷◌, ◌++◌, cond, ℕ, ◌+◌, ◌<◌, length, set};
ghost use Rattle.rules.specs.Sizes.{most_inputs, most_states};
ghost use Rattle.rules.specs.Kiss2.{Field, Term};
ghost use Rattle.importer_terms.specs.Entries.{unsaid, entry_place, is_new, EntriesAt, TermIn, TermOver};

use crate::NumberedTerm;
use crate::cubes::cube_has;
use numbers::wide;
use rules::{Input, MOST_INPUTS};

const INPUTS: usize = MOST_INPUTS as usize;

// Nothing was said: a table of 64 names and 16 inputs.
pub fn no_entries() -> [u8; 1024]
    ensures { result ≡ unsaid }
{
    [0u8; 1024]
}

// Where the entry of a name's number and an input stands.
pub fn entry_place(current: usize, input: Input) -> usize
    requires { (current < most_states) × (input.0 < most_inputs) }
    ensures { (result ≡ entry_place current input.0) × (result < 1024) }
{
    current * INPUTS + wide(input.number())
}

// Writes the entry of an input, if the cube has it and no earlier term is about it.
fn put_entry(text: &[u8], term: NumberedTerm, nexts: &mut [u8], outputs: &mut [u8], input: Input)
    requires term_in { TermIn text.now term × (input.0 < most_inputs) }
    requires nexts_len { (length nexts.old ≡ 1024) × (length outputs.old ≡ 1024) }
    ensures nexts_after { nexts.new ≡ cond (is_new text.now term nexts.old input.0) (set nexts.old (entry_place term.current input.0) (term.next + 1)) nexts.old }
    ensures outputs_after { outputs.new ≡ cond (is_new text.now term nexts.old input.0) (set outputs.old (entry_place term.current input.0) term.output) outputs.old }
{
    if cube_has(text, term.cube, input) {
        let place = entry_place(term.current, input);
        if nexts[place] == 0 {
            nexts[place] = (term.next + 1) as u8;
            outputs[place] = term.output;
        }
    }
}

// Writes the entries of a term, of which those stay that an earlier term is about.
pub fn put_term(text: &[u8], term: NumberedTerm, nexts: &mut [u8], outputs: &mut [u8])
    requires term_in { TermIn text.now term }
    requires nexts_len { (length nexts.old ≡ 1024) × (length outputs.old ≡ 1024) }
    ensures { (names : List Field) (bits : ℕ) (terms : List Term) (t : Term) → EntriesAt nexts.old outputs.old names terms → TermOver text.now term names bits t → EntriesAt nexts.new outputs.new names (terms ++ (t ∷ [])) }
{
    for i in 0..MOST_INPUTS {
        put_entry(text, term, nexts, outputs, Input::numbered(i));
    }
}
