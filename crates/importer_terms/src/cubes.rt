// The bits of a cube and of an output. The leftmost bit is the highest; a dash in a cube stands for both bits.
ghost use Rattle.std.specs.Prelude.{◌≡◌, ◌||◌, ◌+◌, ◌^◌, ◌≤◌, ◌<◌, eqb};
ghost use Rattle.rules.specs.Lists.{any};
ghost use Rattle.rules.specs.Kiss2.{opened, output_value};
ghost use Rattle.theory.specs.Cubes.{bit};
ghost use Rattle.importer_lines.specs.Parts.{bytes_at};
ghost use Rattle.importer_terms.specs.Terms.{CubeIn, OutputIn};

use importer_lines::Part;
use rules::Input;

// What a bit counts that has so many bits behind it.
fn weight(behind: usize) -> u8
    requires { behind ≤ 4 }
    ensures { result ≡ 2 ^ behind }
{
    1u8 << behind
}

fn bit_of(number: u8, behind: usize) -> u8
    requires { behind ≤ 4 }
    ensures { (result ≡ bit behind number) × (result < 2) }
{
    number / weight(behind) % 2
}

// Whether a byte of a cube stands for a bit.
fn fits(byte: u8, bit: u8) -> bool
    requires { bit < 2 }
    ensures { result ≡ (eqb byte 45 || eqb byte (48 + bit)) }
{
    byte == b'-' || byte == b'0' + bit
}

// Whether a cube has an input: it has no more bits than the cube, and each of them fits.
pub fn cube_has(text: &[u8], cube: Part, input: Input) -> bool
    requires { CubeIn text.now cube }
    ensures { result ≡ any (eqb input.0) (opened (bytes_at text.now cube)) }
{
    let Part { start, end } = cube;
    let number = input.number();
    if weight(end - start) <= number {
        return false;
    }
    let last = end - 1;
    for at in start..end {
        let behind = last - at;
        if !fits(text[at], bit_of(number, behind)) {
            return false;
        }
    }
    true
}

// The number of output bits.
pub fn output_value(text: &[u8], output: Part) -> u8
    requires { OutputIn text.now output }
    ensures { result ≡ output_value (bytes_at text.now output) }
{
    let mut value = 0;
    for &byte in &text[output.start..output.end] {
        value = 2 * value + (byte - b'0');
    }
    value
}
