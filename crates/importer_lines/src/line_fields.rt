// Rule 2: space, tab and carriage return separate fields.
ghost use Rattle.std.specs.Prelude.{◌≡◌, ◌≤◌, length};
ghost use Rattle.rules.specs.Kiss2.{is_gap};
ghost use Rattle.importer_lines.specs.Parts.{FirstAt};
ghost use Rattle.importer_lines.specs.Fields.{no_gap, held_of, NextField, FieldsAt};

use crate::{Fields, Part};

fn is_gap(byte: u8) -> bool
    ensures { result ≡ is_gap byte }
{
    byte == b' ' || byte == b'\t' || byte == b'\r'
}

// The first byte of a field, or `end` where there are only gaps.
fn field_start(text: &[u8], from: usize, end: usize) -> usize
    requires { (from ≤ end) × (end ≤ length text.now) }
    ensures { FirstAt no_gap text.now from end result }
{
    let gaps = text[from..end].iter().position(|&byte| !is_gap(byte));
    from + gaps.unwrap_or(end - from)
}

// The first gap, or `end` where there is none.
fn field_end(text: &[u8], from: usize, end: usize) -> usize
    requires { (from ≤ end) × (end ≤ length text.now) }
    ensures { FirstAt is_gap text.now from end result }
{
    let size = text[from..end].iter().position(|&byte| is_gap(byte));
    from + size.unwrap_or(end - from)
}

// The first field from `from` on. Where there is none, the part is empty and stands at `end`.
pub fn next_field(text: &[u8], from: usize, end: usize) -> Part
    requires { (from ≤ end) × (end ≤ length text.now) }
    ensures next_field { NextField text.now from end result }
    ensures end_le_end { result.end ≤ end }
{
    // Most lines have fewer fields than are looked for: behind the last there is nothing to look at.
    if from == end {
        return Part { start: end, end };
    }
    let start = field_start(text, from, end);
    let stop = field_end(text, start, end);
    Part { start, end: stop }
}

// How many fields a part is.
fn held(part: Part) -> u8
    ensures { (result ≡ held_of part) × (result ≤ 1) }
{
    u8::from(part.start < part.end)
}

// Behind the last field every part is empty, so that each field is looked for from where the one before it ends.
pub fn fields_of(text: &[u8], from: usize, end: usize) -> Fields
    requires { (from ≤ end) × (end ≤ length text.now) }
    ensures { FieldsAt text.now from end result }
{
    let a = next_field(text, from, end);
    let b = next_field(text, a.end, end);
    let c = next_field(text, b.end, end);
    let d = next_field(text, c.end, end);
    let e = next_field(text, d.end, end);
    let count = held(a) + held(b) + held(c) + held(d) + held(e);
    Fields { count, a, b, c, d }
}
