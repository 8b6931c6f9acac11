// What a field is: a comment, a fixed text, a name, the bits of a cube or of an output, a number.
ghost use Rattle.std.specs.Prelude.{◌≡◌, true, ◌≤◌, length};
ghost use Rattle.rules.specs.Lists.{all};
ghost use Rattle.rules.specs.Sizes.{counts};
ghost use Rattle.rules.specs.Kiss2.{is_comment, is_bit, is_digit, is_cube, is_name, is_output, value};
ghost use Rattle.importer_says.specs.Fields.{number_in};

use numbers::wide;

// Rule 7: the most bytes of a name.
const MOST_NAME: usize = 16;

// Rule 5: the most digits of a number.
const MOST_DIGITS: usize = 9;

pub fn in_range(number: usize, most: usize) -> bool
    ensures { result ≡ counts most number }
{
    1 <= number && number <= most
}

// Rule 3: a sign behind the first byte is a byte like any other.
pub fn is_comment(field: &[u8]) -> bool
    ensures { result ≡ is_comment field.now }
{
    field.first() == Some(&b'#')
}

fn is_bit(byte: u8) -> bool
    ensures { result ≡ is_bit byte }
{
    byte == b'0' || byte == b'1'
}

pub fn is_name(field: &[u8]) -> bool
    ensures { result ≡ is_name field.now }
{
    in_range(field.len(), MOST_NAME) && field.iter().all(|&byte| b'!' <= byte && byte <= b'~')
}

pub fn is_cube(field: &[u8]) -> bool
    ensures { result ≡ is_cube field.now }
{
    field.iter().all(|&byte| is_bit(byte) || byte == b'-')
}

pub fn is_output(field: &[u8]) -> bool
    ensures { result ≡ is_output field.now }
{
    field.iter().all(|&byte| is_bit(byte))
}

fn is_digits(field: &[u8]) -> bool
    ensures { result ≡ all is_digit field.now }
{
    field.iter().all(|&byte| b'0' <= byte && byte <= b'9')
}

fn value_of(digits: &[u8]) -> usize
    requires { (length digits.now ≤ 9) × (all is_digit digits.now ≡ true) }
    ensures { result ≡ value digits.now }
{
    let mut number = 0;
    for &digit in digits {
        number = 10 * number + wide(digit - b'0');
    }
    number
}

// The number that a field is, if it is one.
pub fn number_in(field: &[u8]) -> Option<usize>
    ensures { result ≡ number_in field.now }
{
    if in_range(field.len(), MOST_DIGITS) && is_digits(field) {
        Some(value_of(field))
    } else {
        None
    }
}
