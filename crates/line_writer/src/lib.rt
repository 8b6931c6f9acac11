// Writers of one thing each, for lines of text. Each is lent an output and the place to write at, and answers the place
// after what it wrote. The bytes before and behind stay.
#![tactic(auto)]

ghost use Rattle.std.specs.Prelude.{◌≡◌, [], ◌∷◌, ◌++◌, ◌+◌, ◌≤◌, ◌<◌, length};
ghost use Rattle.rules.specs.Words.{Valid};
ghost use Rattle.rules.specs.Line.{text, digit, decimal, hex};
ghost use Rattle.line_writer.specs.Puts.{Puts, most_digits};

pub fn put_byte(byte: u8, out: &mut [u8], at: usize) -> usize
    requires { at < length out.old }
    ensures { Puts out.old at (byte ∷ []) out.new result }
{
    out[at] = byte;
    at + 1
}

// A fixed text.
pub fn put_text(fixed: &[u8], out: &mut [u8], at: usize) -> usize
    requires { at + length fixed.now ≤ length out.old }
    ensures { Puts out.old at fixed.now out.new result }
{
    let next = at + fixed.len();
    out[at..next].copy_from_slice(fixed);
    next
}

// The digit of a number below 16; letters are lower case.
fn glyph(number: u8) -> u8
    requires { number < 16 }
    ensures { result ≡ digit number }
{
    if number < 10 {
        b'0' + number
    } else {
        b'a' + (number - 10)
    }
}

// A word, one hex digit an input.
pub fn put_hex(word: &[u8], out: &mut [u8], at: usize) -> usize
    requires word_in_bounds { at + length word.now ≤ length out.old }
    requires valid { Valid 16 word.now }
    ensures { Puts out.old at (hex word.now) out.new result }
{
    for (i, &input) in word.iter().enumerate() {
        out[at + i] = glyph(input);
    }
    at + word.len()
}

// The digits of a number, the highest first, where there is room for them.
fn put_digits(number: usize, out: &mut [u8], at: usize) -> usize
    requires { at + length (decimal number) ≤ length out.old }
    ensures { Puts out.old at (decimal number) out.new result }
{
    if number < 10 {
        return put_byte(glyph(number as u8), out, at);
    }
    let high = number / 10;
    let low = number % 10;
    let next = put_digits(high, out, at);
    put_byte(glyph(low as u8), out, next)
}

// A number in decimal.
pub fn put_decimal(number: usize, out: &mut [u8], at: usize) -> usize
    requires { at + most_digits ≤ length out.old }
    ensures puts { Puts out.old at (decimal number) out.new result }
    ensures upper_bound { result ≤ at + most_digits }
{
    put_digits(number, out, at)
}

pub fn put_line_feed(out: &mut [u8], at: usize) -> usize
    requires { at < length out.old }
    ensures { Puts out.old at (text "\n") out.new result }
{
    put_byte(b'\n', out, at)
}

// A number as the next word of a line: a space before it. This and the next are plainer than one function that is passed its writer.
pub fn add_decimal(number: usize, out: &mut [u8], at: usize) -> usize
    requires { at + 1 + most_digits ≤ length out.old }
    ensures puts { Puts out.old at (text " " ++ decimal number) out.new result }
    ensures upper_bound { result ≤ at + 1 + most_digits }
{
    let next = put_byte(b' ', out, at);
    put_decimal(number, out, next)
}

// A word of inputs as the next word of a line: a space before it.
pub fn add_hex(word: &[u8], out: &mut [u8], at: usize) -> usize
    requires word_in_bounds { at + 1 + length word.now ≤ length out.old }
    requires valid { Valid 16 word.now }
    ensures puts { Puts out.old at (text " " ++ hex word.now) out.new result }
    ensures value { result ≡ at + 1 + length word.now }
{
    let next = put_byte(b' ', out, at);
    put_hex(word, out, next)
}
