// The middles (document 01, "Needed words"): the words of at most `most` inputs, by length, then by inputs. They have the
// places 0, 1, .. in that order, so that a loop can go through them by number; the middle at a place is grown one input at
// a time.
#![tactic(auto)]

ghost use Rattle.std.specs.Prelude.{◌≡◌, [], ◌∷◌, ◌++◌, cond, suc, ◌+◌, ◌-◌, ◌≤◌, ◌<◌, eqb, length, get_or};
ghost use Rattle.rules.specs.Sizes.{bound_of};
ghost use Rattle.rules.specs.Words.{Word, words_of, shortlex};
ghost use Rattle.rules.specs.Answers.{middle_of};
ghost use Rattle.middles.specs.Middles.{words_from};

use reader::{DossierShape, bound_of};
use rules::{Input, Middle};

// The most inputs of a middle.
pub fn longest_middle(x: DossierShape) -> u8
    requires { (x.states ≤ bound_of x.states x.bound_byte) × (bound_of x.states x.bound_byte ≤ x.states + 4) }
    ensures { (result ≡ suc (bound_of x.states x.bound_byte - x.states)) × (result ≤ 5) }
{
    bound_of(x.states, x.bound_byte) - x.states + 1
}

// The empty middle, from which all others grow.
pub fn no_inputs() -> Middle
    ensures { result ≡ middle_of [] }
{
    let none = Input::numbered(0);
    Middle {
        len: 0,
        a: none,
        b: none,
        c: none,
        d: none,
        e: none,
    }
}

// The new input where the middle ends at this place, else what the place has.
fn put(len: u8, place: u8, i: Input, old: Input) -> Input
    ensures { result ≡ cond (eqb len place) i old }
{
    if len == place { i } else { old }
}

// The middle with one input more at its end.
pub fn grown(m: Middle, i: Input) -> Middle
    requires { m.len < 5 }
    ensures value { (w : Word) → m ≡ middle_of w → length w < 5 → result ≡ middle_of (w ++ (i.0 ∷ [])) }
    ensures len_value { result.len ≡ m.len + 1 }
{
    let len = m.len;
    Middle {
        len: len + 1,
        a: put(len, 0, i, m.a),
        b: put(len, 1, i, m.b),
        c: put(len, 2, i, m.c),
        d: put(len, 3, i, m.d),
        e: put(len, 4, i, m.e),
    }
}

// How many words have exactly `len` inputs.
fn words_of(inputs: u8, len: u8) -> usize
    requires { (0 < inputs) × (inputs ≤ 16) × (len ≤ 5) }
    ensures { (result ≡ length (words_of inputs len)) × (0 < result) × (result ≤ 1048576) }
{
    let mut words = 1;
    for _ in 0..len {
        words = words * (inputs as usize);
    }
    words
}

// How many middles there are.
pub fn count(inputs: u8, most: u8) -> usize
    requires { (0 < inputs) × (inputs ≤ 16) × (most ≤ 5) }
    ensures { (result ≡ length (shortlex inputs most)) × (0 < result) × (result ≤ 1118481) }
{
    if most == 0 {
        return 1;
    }
    count(inputs, most - 1) + words_of(inputs, most)
}

// The middle m with `left` inputs more: those of the word at place x among the words of `left` inputs. Each call grows m by
// one input, until none of the allowed length remains.
fn grown_to(m: Middle, inputs: u8, left: u8, x: usize) -> Middle
    requires { (m.len + left ≤ 5) × (0 < inputs) × (inputs ≤ 16) × (x < length (words_of inputs left)) }
    ensures { (w : Word) → m ≡ middle_of w → result ≡ middle_of (w ++ get_or (words_of inputs left) x []) }
{
    if left == 0 {
        return m;
    }
    // As many words in a row begin with the same input.
    let row = words_of(inputs, left - 1);
    let i = x / row;
    let rest = x % row;
    grown_to(grown(m, Input::numbered(i as u8)), inputs, left - 1, rest)
}

// The middle at place x among those of `len` and up to `left` inputs more. Each call passes over the words of one length.
fn middle_from(inputs: u8, len: u8, left: u8, x: usize) -> Middle
    requires { (0 < inputs) × (inputs ≤ 16) × (len + left ≤ 5) × (x < length (words_from inputs len left)) }
    ensures { result ≡ middle_of (get_or (words_from inputs len left) x []) }
{
    let words = words_of(inputs, len);
    if x < words {
        return grown_to(no_inputs(), inputs, len, x);
    }
    middle_from(inputs, len + 1, left - 1, x - words)
}

// The middle at place x.
pub fn middle(inputs: u8, most: u8, x: usize) -> Middle
    requires { (0 < inputs) × (inputs ≤ 16) × (most ≤ 5) × (x < length (shortlex inputs most)) }
    ensures { result ≡ middle_of (get_or (shortlex inputs most) x []) }
{
    middle_from(inputs, 0, most, x)
}
