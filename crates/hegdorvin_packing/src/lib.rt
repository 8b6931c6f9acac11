// Answers as one number (docs/INTERFACE.md).
#![tactic(auto)]

ghost use Rattle.std.specs.Prelude.{◌≡◌, [], ◌∷◌, ◌+◌, ◌*◌, ◌<◌};
ghost use Rattle.rules.specs.Answers.{well, refusing, check_says, build_says, run_says, compare_says, judge_says, cost_says, find_says, import_says};
ghost use Rattle.rules.specs.declared.Refusal.TheVariants.{Missing};
ghost use Rattle.theory.specs.Bounds.{Fits, SmallRefusal};
ghost use Rattle.hegdorvin_packing.specs.Packed.{packed};

use numbers::packed_byte;
use refusals::said;
use rules::{Built, Checked, Compared, Costed, Found, Imported, Judged, Middle, Ran, Refusal};

// The fields of every answer but MISSING.
fn plain(number: u8, file: u8, first: usize, second: usize) -> u64
    requires { (number < 32) × (file < 8) × (first < 16777216) × (second < 16777216) }
    ensures { result ≡ number + 32 * file + 256 * first + 4294967296 * second }
{
    packed_byte(number)
        + 32 * packed_byte(file)
        + 256 * (first as u64)
        + 4294967296 * (second as u64)
}

// The inputs of a middle, four bits each.
fn inputs(y: Middle) -> u64
    requires { (y.a.0 < 16) × (y.b.0 < 16) × (y.c.0 < 16) × (y.d.0 < 16) × (y.e.0 < 16) }
    ensures { (result ≡ y.a.0 + 16 * y.b.0 + 256 * y.c.0 + 4096 * y.d.0 + 65536 * y.e.0) × (result < 1048576) }
{
    let a = y.a;
    let b = y.b;
    let c = y.c;
    let d = y.d;
    let e = y.e;
    packed_byte(a.number())
        + 16 * packed_byte(b.number())
        + 256 * packed_byte(c.number())
        + 4096 * packed_byte(d.number())
        + 65536 * packed_byte(e.number())
}

fn missing(cover: usize, y: Middle, separator: usize) -> u64
    requires { SmallRefusal (Missing cover y separator) }
    ensures { result ≡ packed (refusing (Missing cover y separator)) }
{
    let len = y.len;
    43 + 256 * (cover as u64)
        + 16777216 * (separator as u64)
        + 1099511627776 * packed_byte(len)
        + 8796093022208 * inputs(y)
}

pub fn refusal(r: Refusal) -> u64
    requires { Fits (refusing r) }
    ensures { result ≡ packed (refusing r) }
{
    match r {
        Refusal::Missing(cover, y, separator) => missing(cover, y, separator),
        _ => {
            let s = said(r);
            let file = s.file;
            plain(s.number, file.number(), s.first, s.second)
        }
    }
}

pub fn checked(r: Checked) -> u64
    requires { Fits (check_says r) }
    ensures { result ≡ packed (check_says r) }
{
    match r {
        Checked::Accepted => plain(0, 0, 0, 0),
        Checked::Refused(x) => refusal(x),
    }
}

pub fn built(r: Built) -> u64
    requires { Fits (build_says r) }
    ensures { result ≡ packed (build_says r) }
{
    match r {
        Built::Written(n) => plain(0, 0, n, 0),
        Built::Refused(x) => refusal(x),
    }
}

pub fn ran(r: Ran) -> u64
    requires { Fits (run_says r) }
    ensures { result ≡ packed (run_says r) }
{
    match r {
        Ran::Passes(tests) => plain(0, 0, tests, 0),
        Ran::Fails(test, step) => plain(31, 0, test, step),
        Ran::Refused(x) => refusal(x),
    }
}

pub fn compared(r: Compared) -> u64
    requires { Fits (compare_says r) }
    ensures { result ≡ packed (compare_says r) }
{
    match r {
        Compared::Equal => plain(0, 0, 0, 0),
        Compared::Differs(n) => plain(31, 0, n, 0),
        Compared::Refused(x) => refusal(x),
    }
}

pub fn judged(r: Judged) -> u64
    requires { Fits (judge_says r) }
    ensures { result ≡ packed (judge_says r) }
{
    match r {
        Judged::Agrees => plain(0, 0, 0, 0),
        Judged::Deviates(test, step) => plain(31, 0, test, step),
        Judged::Refused(x) => refusal(x),
    }
}

// Where a part of the dossier stands, and its length.
pub fn part(place: usize, size: usize) -> u64
    requires { Fits (well (place ∷ size ∷ [])) }
    ensures { result ≡ packed (well (place ∷ size ∷ [])) }
{
    plain(0, 0, place, size)
}

pub fn costed(r: Costed) -> u64
    requires { Fits (cost_says r) }
    ensures { result ≡ packed (cost_says r) }
{
    match r {
        Costed::Cost(tests, inputs) => plain(0, 0, tests, inputs),
        Costed::Refused(x) => refusal(x),
    }
}

pub fn found(r: Found) -> u64
    requires { Fits (find_says r) }
    ensures { result ≡ packed (find_says r) }
{
    match r {
        Found::Written(n) => plain(0, 0, n, 0),
        Found::Refused(x) => refusal(x),
    }
}

pub fn imported(r: Imported) -> u64
    requires { Fits (import_says r) }
    ensures { result ≡ packed (import_says r) }
{
    match r {
        Imported::Written(n) => plain(0, 0, n, 0),
        Imported::Refused(x) => refusal(x),
    }
}
