// What the lines so far have said (docs/KISS2.md, rules 4, 6, 8, 9 and 10): the numbers of the directives, whether a reset state and the
// end were said, and how many terms there were. Names and entries stand in tables beside it.
#![tactic(auto)]

ghost use Rattle.std.specs.Prelude.{◌≡◌, List, [], ◌∷◌, ◌++◌, ◌≤◌, ◌<◌, eqb, leb, length, option_to_list};
ghost use Rattle.rules.specs.Lists.{all};
ghost use Rattle.rules.specs.Kiss2.{Field, Term, Says, number, reset, end, most_of, numbers_in, names_in, is_whole};
ghost use Rattle.importer_says.specs.Directives.{name_of};
ghost use Rattle.importer_counts.specs.Counts.{CountsAt, Counted, TermCounted};

use importer_says::Directive;

// A directive's number is there once it was said.
#[derive(Clone, Copy)]
pub struct Counts {
    pub input_bits: Option<usize>,
    pub output_bits: Option<usize>,
    pub term_count: Option<usize>,
    pub state_count: Option<usize>,
    pub has_reset: bool,
    pub has_ended: bool,
    pub terms: usize,
}

// Before the first line.
pub fn no_counts() -> Counts
    ensures { CountsAt [] result }
{
    Counts {
        input_bits: None,
        output_bits: None,
        term_count: None,
        state_count: None,
        has_reset: false,
        has_ended: false,
        terms: 0,
    }
}

// What a directive has said.
fn number_of(x: Counts, directive: Directive) -> Option<usize>
    ensures { (before : List Says) → CountsAt before x → numbers_in (name_of directive) before ≡ option_to_list result }
{
    match directive {
        Directive::Inputs => x.input_bits,
        Directive::Outputs => x.output_bits,
        Directive::Terms => x.term_count,
        Directive::States => x.state_count,
    }
}

// With the number of one directive more.
fn with_number(x: Counts, directive: Directive, n: usize) -> Counts
    requires { n ≤ most_of (name_of directive) }
    ensures { (before : List Says) → CountsAt before x → numbers_in (name_of directive) before ≡ [] → CountsAt (before ++ (number (name_of directive) n ∷ [])) result }
{
    match directive {
        Directive::Inputs => Counts {
            input_bits: Some(n),
            ..x
        },
        Directive::Outputs => Counts {
            output_bits: Some(n),
            ..x
        },
        Directive::Terms => Counts {
            term_count: Some(n),
            ..x
        },
        Directive::States => Counts {
            state_count: Some(n),
            ..x
        },
    }
}

// Whether there may be so many of something, where a directive said how many.
pub fn allows(said: Option<usize>, count: usize) -> bool
    ensures { result ≡ all (leb count) (option_to_list said) }
{
    said.is_none_or(|most| count <= most)
}

// Whether there are so many as was said, if anything was.
fn agrees(said: Option<usize>, count: usize) -> bool
    ensures { result ≡ all (eqb count) (option_to_list said) }
{
    said.is_none_or(|number| count == number)
}

// Directives come before the first term, each once.
pub fn count_number(x: Counts, directive: Directive, n: usize) -> Option<Counts>
    requires { n ≤ most_of (name_of directive) }
    ensures { (before : List Says) → CountsAt before x → Counted before (number (name_of directive) n) result }
{
    if x.has_ended {
        return None;
    }
    if x.terms != 0 {
        return None;
    }
    if number_of(x, directive).is_some() {
        return None;
    }
    Some(with_number(x, directive, n))
}

pub fn count_reset(x: Counts) -> Option<Counts>
    ensures { (before : List Says) (state : Field) → CountsAt before x → Counted before (reset state) result }
{
    if x.has_ended {
        return None;
    }
    if x.terms != 0 {
        return None;
    }
    if x.has_reset {
        return None;
    }
    Some(Counts {
        has_reset: true,
        ..x
    })
}

pub fn count_end(x: Counts) -> Option<Counts>
    ensures { (before : List Says) → CountsAt before x → Counted before end result }
{
    if x.has_ended {
        return None;
    }
    Some(Counts {
        has_ended: true,
        ..x
    })
}

// A term's cube and output are as long as was said, and there are not more terms than was said.
pub fn count_term(x: Counts, cube: usize, output: usize) -> Option<Counts>
    requires { x.terms < 65536 }
    ensures { (before : List Says) (t : Term) → CountsAt before x → length t.cube ≡ cube → length t.output ≡ output → TermCounted before t result }
{
    if x.has_ended {
        return None;
    }
    if x.input_bits != Some(cube) {
        return None;
    }
    if x.output_bits != Some(output) {
        return None;
    }
    let terms = x.terms + 1;
    if !allows(x.term_count, terms) {
        return None;
    }
    Some(Counts { terms, ..x })
}

// Whether nothing is lacking at the end, where so many states were named.
pub fn is_whole(x: Counts, states: usize) -> bool
    ensures { (before : List Says) → CountsAt before x → length (names_in before) ≡ states → result ≡ is_whole before }
{
    if !x.has_ended || x.terms == 0 {
        return false;
    }
    agrees(x.term_count, x.terms) && agrees(x.state_count, states)
}
