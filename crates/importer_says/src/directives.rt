// The directives by their names, for whoever reads a text or writes one.
ghost use Rattle.std.specs.Prelude.{◌≡◌};
ghost use Rattle.rules.specs.Kiss2.{most_of};
ghost use Rattle.importer_says.specs.Directives.{name_of, reset_name, end_name};

use crate::Directive;

pub fn name_of(directive: Directive) -> [u8; 2]
    ensures { result ≡ name_of directive }
{
    match directive {
        Directive::Inputs => *b".i",
        Directive::Outputs => *b".o",
        Directive::Terms => *b".p",
        Directive::States => *b".s",
    }
}

pub fn reset_name() -> [u8; 2]
    ensures { result ≡ reset_name }
{
    *b".r"
}

pub fn end_name() -> [u8; 2]
    ensures { result ≡ end_name }
{
    *b".e"
}

// Rule 5: the most that a directive may say.
pub fn most_of(directive: Directive) -> usize
    ensures { result ≡ most_of (name_of directive) }
{
    match directive {
        Directive::Inputs => 4,
        Directive::Outputs => 8,
        Directive::Terms => 999999999,
        Directive::States => 64,
    }
}
