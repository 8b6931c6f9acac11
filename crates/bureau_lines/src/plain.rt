// Lines of a fixed word and the values behind it. The four differ in what they put behind the word. One function that is passed the writer of
// that would need a contract for what a writer leaves in the bytes it is lent, and would say less plainly what each line has.
ghost use Rattle.std.specs.Prelude.{[], ◌∷◌, ◌≤◌, length};
ghost use Rattle.rules.specs.Words.{Valid};
ghost use Rattle.rules.specs.Line.{decimal, line};
ghost use Rattle.bureau_refusals.specs.Values.{spelled};
ghost use Rattle.line.specs.Lines.{Says};

use bureau_refusals::{add_word, put_last, put_two};
use line::{Line, no_text};
use line_writer::{put_line_feed, put_text};

pub fn plain_line(fixed: &[u8]) -> Line
    requires { length fixed.now ≤ 8 }
    ensures { Says (line (fixed.now ∷ [])) result }
{
    let mut bytes = no_text();
    let said = put_text(fixed, &mut bytes, 0);
    let length = put_line_feed(&mut bytes, said);
    Line { bytes, length }
}

pub fn number_line(fixed: &[u8], number: usize) -> Line
    requires { length fixed.now ≤ 8 }
    ensures { Says (line (fixed.now ∷ decimal number ∷ [])) result }
{
    let mut bytes = no_text();
    let said = put_text(fixed, &mut bytes, 0);
    let length = put_last(number, &mut bytes, said);
    Line { bytes, length }
}

pub fn numbers_line(fixed: &[u8], first: usize, second: usize) -> Line
    requires { length fixed.now ≤ 8 }
    ensures { Says (line (fixed.now ∷ decimal first ∷ decimal second ∷ [])) result }
{
    let mut bytes = no_text();
    let said = put_text(fixed, &mut bytes, 0);
    let length = put_two(first, second, &mut bytes, said);
    Line { bytes, length }
}

pub fn word_line(fixed: &[u8], word: &[u8]) -> Line
    requires { (length fixed.now ≤ 8) × (length word.now ≤ 200) × Valid 16 word.now }
    ensures { Says (line (fixed.now ∷ spelled word.now ∷ [])) result }
{
    let mut bytes = no_text();
    let said = put_text(fixed, &mut bytes, 0);
    let spelt = add_word(word, &mut bytes, said);
    let length = put_line_feed(&mut bytes, spelt);
    Line { bytes, length }
}
