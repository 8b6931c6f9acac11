// The line of a refusal, with every value that it returns.
#![tactic(auto)]

ghost use Rattle.std.specs.Prelude.{◌≡◌, [], ◌∷◌, ◌++◌, ◌+◌, ◌*◌, ◌≤◌, length};
ghost use Rattle.rules.specs.Words.{Valid};
ghost use Rattle.rules.specs.Answers.{refusing};
ghost use Rattle.rules.specs.Line.{text, decimal};
ghost use Rattle.theory.specs.Bounds.{Fits};
ghost use Rattle.line_writer.specs.Puts.{Puts, Closes, most_digits};
ghost use Rattle.line.specs.Lines.{line_room, Says};
ghost use Rattle.bureau_refusals.specs.Values.{spelled, five_inputs, middle_word, value_words, refused_line};

use line::{Line, no_text, put_spot};
use line_writer::{add_decimal, add_hex, put_line_feed, put_text};
use refusals::said;
use rules::{Middle, Refusal};

// A word of inputs as the next word of a line.
pub fn add_word(word: &[u8], out: &mut [u8], at: usize) -> usize
    requires word_in_bounds { at + 2 + length word.now ≤ length out.old }
    requires valid { Valid 16 word.now }
    ensures puts { Puts out.old at (text " " ++ spelled word.now) out.new result }
    ensures upper_bound { result ≤ at + 2 + length word.now }
{
    if word.is_empty() {
        return put_text(b" -", out, at);
    }
    add_hex(word, out, at)
}

// A number as the last word of a line.
pub fn put_last(number: usize, out: &mut [u8], at: usize) -> usize
    requires { at + 2 + most_digits ≤ length out.old }
    ensures { Closes out.old at (decimal number ∷ []) out.new result }
{
    let numbered = add_decimal(number, out, at);
    put_line_feed(out, numbered)
}

// Two numbers, which end a line.
pub fn put_two(first: usize, second: usize, out: &mut [u8], at: usize) -> usize
    requires { at + 3 + 2 * most_digits ≤ length out.old }
    ensures { Closes out.old at (decimal first ∷ decimal second ∷ []) out.new result }
{
    let numbered = add_decimal(first, out, at);
    put_last(second, out, numbered)
}

fn five_inputs(y: Middle) -> [u8; 5]
    ensures { result ≡ five_inputs y }
{
    let a = y.a;
    let b = y.b;
    let c = y.c;
    let d = y.d;
    let e = y.e;
    [a.number(), b.number(), c.number(), d.number(), e.number()]
}

// A middle has the first of the five inputs, as many as its length says.
fn add_middle(y: Middle, out: &mut [u8], at: usize) -> usize
    requires at_in_bounds { at + 7 ≤ length out.old }
    requires valid { Valid 16 (five_inputs y) }
    ensures puts { Puts out.old at (text " " ++ spelled (middle_word y)) out.new result }
    ensures upper_bound { result ≤ at + 7 }
{
    let inputs = five_inputs(y);
    let length = usize::from(y.len).min(5);
    add_word(&inputs[..length], out, at)
}

fn put_missing(cover: usize, y: Middle, separator: usize, out: &mut [u8], at: usize) -> usize
    requires most_digits_in_bounds { at + 10 + 2 * most_digits ≤ length out.old }
    requires valid { Valid 16 (five_inputs y) }
    ensures { Closes out.old at (decimal cover ∷ spelled (middle_word y) ∷ decimal separator ∷ []) out.new result }
{
    let covered = add_decimal(cover, out, at);
    let spelt = add_middle(y, out, covered);
    put_last(separator, out, spelt)
}

// What a refusal also returns.
fn put_values(r: Refusal, out: &mut [u8], at: usize) -> usize
    requires most_digits_in_bounds { at + 3 * most_digits ≤ length out.old }
    requires fits { Fits (refusing r) }
    ensures { Closes out.old at (value_words r) out.new result }
{
    match r {
        Refusal::Malformed(_, file, place) => put_spot(file, place, out, at),
        Refusal::NoEmptyWord => put_line_feed(out, at),
        Refusal::Unreached(_, q) => put_last(q.number() as usize, out, at),
        Refusal::NoSeparator => put_line_feed(out, at),
        Refusal::NotSeparated(p, q) => put_two(p.number() as usize, q.number() as usize, out, at),
        Refusal::Missing(cover, y, separator) => put_missing(cover, y, separator, out, at),
        Refusal::Repeated(record) => put_last(record, out, at),
        Refusal::Foreign(record) => put_last(record, out, at),
        Refusal::Absent(test) => put_last(test, out, at),
        Refusal::OtherInputs => put_line_feed(out, at),
        Refusal::TooManyStates => put_line_feed(out, at),
        Refusal::NoRoom(needed) => put_last(needed, out, at),
        Refusal::NotReduced(p, q) => put_two(p.number() as usize, q.number() as usize, out, at),
        Refusal::BadLine(line) => put_last(line, out, at),
        Refusal::Contradiction(line) => put_last(line, out, at),
        Refusal::Incomplete(q, i) => put_two(q.number() as usize, i.number() as usize, out, at),
    }
}

fn write_refused(r: Refusal, out: &mut [u8]) -> usize
    requires line_room_in_bounds { line_room ≤ length out.old }
    requires fits { Fits (refusing r) }
    ensures { Puts out.old 0 (refused_line r) out.new result }
{
    let number = said(r).number as usize;
    let refused = put_text(b"REFUSED", out, 0);
    let numbered = add_decimal(number, out, refused);
    put_values(r, out, numbered)
}

pub fn refused_line(r: Refusal) -> Line
    requires { Fits (refusing r) }
    ensures { Says (refused_line r) result }
{
    let mut bytes = no_text();
    let length = write_refused(r, &mut bytes);
    Line { bytes, length }
}
