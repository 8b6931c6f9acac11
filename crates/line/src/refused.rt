// The line of a refusal: its number, and for 1 to 6 the file's letter and the place.
ghost use Rattle.std.specs.Prelude.{◌≡◌, [], ◌∷◌, ◌+◌, ◌≤◌, length};
ghost use Rattle.rules.specs.Line.{decimal, letter, refusal_line};
ghost use Rattle.line_writer.specs.Puts.{Puts, Closes, most_digits};
ghost use Rattle.line.specs.Lines.{line_room};

use line_writer::{add_decimal, put_byte, put_line_feed, put_text};
use refusals::said;
use rules::{File, Refusal};

fn initial(file: File) -> u8
    ensures { result ∷ [] ≡ letter file }
{
    match file {
        File::Dossier => b'D',
        File::Unit => b'U',
        File::Sheet => b'S',
        File::Output => b'O',
        File::Number => b'N',
        File::Text => b'T',
    }
}

// The letter of a file and a place in it, which end a line.
pub fn put_spot(file: File, place: usize, out: &mut [u8], at: usize) -> usize
    requires { at + 4 + most_digits ≤ length out.old }
    ensures { Closes out.old at (letter file ∷ decimal place ∷ []) out.new result }
{
    let spaced = put_byte(b' ', out, at);
    let lettered = put_byte(initial(file), out, spaced);
    let placed = add_decimal(place, out, lettered);
    put_line_feed(out, placed)
}

pub fn write_refusal(r: Refusal, out: &mut [u8]) -> usize
    requires { line_room ≤ length out.old }
    ensures { Puts out.old 0 (refusal_line r) out.new result }
{
    let number = said(r).number as usize;
    let said = put_text(b"REFUSED", out, 0);
    let numbered = add_decimal(number, out, said);
    match r {
        Refusal::Malformed(_, file, place) => put_spot(file, place, out, numbered),
        _ => put_line_feed(out, numbered),
    }
}
