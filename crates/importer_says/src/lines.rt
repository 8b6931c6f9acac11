// What a line says, by the number of its fields.
ghost use Rattle.std.specs.Prelude.{◌≡◌, [], ◌∷◌, ◌≤◌, length};
ghost use Rattle.rules.specs.Words.{same};
ghost use Rattle.rules.specs.Kiss2.{directive, fields_say, line_says};
ghost use Rattle.importer_lines.specs.Parts.{part_at, bytes_at, FieldIn};
ghost use Rattle.importer_says.specs.Directives.{name_of, reset_name, NamedAs};
ghost use Rattle.importer_says.specs.Said.{SaidAs};

use crate::directives::{end_name, most_of, name_of, reset_name};
use crate::fields::{in_range, is_comment, is_cube, is_name, is_output, number_in};
use crate::{Directive, LineSaid, Named};
use importer_lines::{Fields, Part, fields_of};
use texts::same_text;

fn bytes_of(text: &[u8], part: Part) -> &[u8]
    requires { FieldIn text.now part }
    ensures { result.now ≡ bytes_at text.now part }
{
    &text[part.start..part.end]
}

fn named_by(field: &[u8]) -> Named
    ensures { NamedAs field.now result }
{
    if same_text(field, &name_of(Directive::Inputs)) {
        return Named::Number(Directive::Inputs);
    }
    if same_text(field, &name_of(Directive::Outputs)) {
        return Named::Number(Directive::Outputs);
    }
    if same_text(field, &name_of(Directive::Terms)) {
        return Named::Number(Directive::Terms);
    }
    if same_text(field, &name_of(Directive::States)) {
        return Named::Number(Directive::States);
    }
    if same_text(field, &reset_name()) {
        return Named::Reset;
    }
    Named::Other
}

fn number_said(text: &[u8], named: Directive, part: Part) -> LineSaid
    requires { FieldIn text.now part }
    ensures { SaidAs text.now (directive (name_of named) (bytes_at text.now part)) result }
{
    let Some(number) = number_in(bytes_of(text, part)) else {
        return LineSaid::Bad;
    };
    if in_range(number, most_of(named)) {
        LineSaid::Number(named, number)
    } else {
        LineSaid::Bad
    }
}

fn reset_said(text: &[u8], part: Part) -> LineSaid
    requires { FieldIn text.now part }
    ensures { SaidAs text.now (directive reset_name (bytes_at text.now part)) result }
{
    if is_name(bytes_of(text, part)) {
        LineSaid::Reset(part)
    } else {
        LineSaid::Bad
    }
}

fn directive_said(text: &[u8], a: Part, b: Part) -> LineSaid
    requires field_in { FieldIn text.now a }
    requires field_in_2 { FieldIn text.now b }
    ensures { SaidAs text.now (directive (bytes_at text.now a) (bytes_at text.now b)) result }
{
    match named_by(bytes_of(text, a)) {
        Named::Number(named) => number_said(text, named, b),
        Named::Reset => reset_said(text, b),
        Named::Other => LineSaid::Bad,
    }
}

// One field alone can only be the end.
fn end_said(text: &[u8], a: Part) -> LineSaid
    requires { FieldIn text.now a }
    ensures { SaidAs text.now (fields_say (bytes_at text.now a) []) result }
{
    if same_text(bytes_of(text, a), &end_name()) {
        LineSaid::End
    } else {
        LineSaid::Bad
    }
}

fn term_said(text: &[u8], a: Part, b: Part, c: Part, d: Part) -> LineSaid
    requires field_in { FieldIn text.now a }
    requires field_in_2 { FieldIn text.now b }
    requires field_in_3 { FieldIn text.now c }
    requires field_in_4 { FieldIn text.now d }
    ensures { SaidAs text.now (fields_say (bytes_at text.now a) (bytes_at text.now b ∷ bytes_at text.now c ∷ bytes_at text.now d ∷ [])) result }
{
    if is_cube(bytes_of(text, a))
        && is_name(bytes_of(text, b))
        && is_name(bytes_of(text, c))
        && is_output(bytes_of(text, d))
    {
        LineSaid::Term(a, b, c, d)
    } else {
        LineSaid::Bad
    }
}

// What the line in text[from..end] says.
pub fn line_said(text: &[u8], from: usize, end: usize) -> LineSaid
    requires { (from ≤ end) × (end ≤ length text.now) }
    ensures { SaidAs text.now (line_says (part_at text.now from end)) result }
{
    let Fields { count, a, b, c, d } = fields_of(text, from, end);
    if count == 0 || is_comment(bytes_of(text, a)) {
        return LineSaid::Skipped;
    }
    match count {
        1 => end_said(text, a),
        2 => directive_said(text, a, b),
        4 => term_said(text, a, b, c, d),
        _ => LineSaid::Bad,
    }
}
