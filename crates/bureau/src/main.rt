// The bureau's program: `check D`, `build D OUT`, `run D U`, `compare D U`, `judge D S`, `cost D`, `find U BOUND OUT` and
// `import T U`, with the names of files and a number. It reads them, asks for the line of the operation, and prints it
// (docs/LINES.md).
#![tactic(auto)]

ghost use Rattle.std.specs.Prelude.{◌≡◌, [], ◌∷◌, ◌≤◌, length};
ghost use Rattle.files.specs.Fronts.{IsPrefixLen};
ghost use Rattle.bureau.specs.Bounds.{bound_from, bound_given};
ghost use Rattle.bureau.specs.Printable.{Printable};

use bureau_lines::{
    BuiltLine, build_line, check_line, compare_line, cost_line, find_line, import_line, trial_line,
};
use bureau_sheets::judge_line;
use files::{large_buffer, open_overwrite, open_read, read_full};
use line::Line;
use rules::MOST_DOSSIER_BYTES;
use std::env::FillError;
use std::io;
use std::io::Write;
use std::rt::{Env, Files};

// One byte more than a sheet may have.
const SHEET_ROOM: usize = 131071;

fn sheet_buffer() -> [u8; SHEET_ROOM]
    ensures { 131071 ≡ length result }
{
    [0; SHEET_ROOM]
}

// As long as a dossier may be.
fn built_buffer() -> [u8; MOST_DOSSIER_BYTES]
    ensures { 65535 ≡ length result }
{
    [0; MOST_DOSSIER_BYTES]
}

// Room for a word of the command line, more than the name of a file may have.
fn word_buffer() -> [u8; 4096]
    ensures { 4096 ≡ length result }
{
    [0; 4096]
}

// Puts an argument at the start of buf, and returns its length. One that is missing or longer than buf counts as an empty one, which names no
// file and no operation and makes no bound.
fn put_argument(rt: &impl Env, argument: usize, buf: &mut [u8]) -> usize
    ensures { IsPrefixLen result buf.new }
{
    rt.arg(argument, buf).unwrap_or(0)
}

fn has_argument(rt: &impl Env, argument: usize) -> bool {
    let mut word = word_buffer();
    match rt.arg(argument, &mut word) {
        Ok(_) | Err(FillError::TooLong) => true,
        Err(FillError::NotPresent) => false,
    }
}

// How many words the command line has, the program's own name among them. A sixth word is one too many, and ends the count.
fn word_count(rt: &impl Env) -> usize {
    for n in 0..6 {
        if !has_argument(rt, n) {
            return n;
        }
    }
    6
}

// The first bytes of the file that an argument names, as many as buf holds, which is more than a file may have. A file that
// cannot be opened counts as empty, and one that cannot be read to its end as ended there.
fn load(rt: &(impl Env + Files), argument: usize, buf: &mut [u8]) -> usize
    ensures { IsPrefixLen result buf.new }
{
    let mut path = word_buffer();
    let n = put_argument(rt, argument, &mut path);
    match open_read(rt, &path[..n]) {
        Some(mut file) => read_full(&mut file, buf),
        None => 0,
    }
}

// Whether the file that an argument names now has these bytes.
fn save(rt: &(impl Env + Files), argument: usize, bytes: &[u8]) -> bool {
    let mut path = word_buffer();
    let n = put_argument(rt, argument, &mut path);
    match open_overwrite(rt, &path[..n]) {
        Some(mut file) => file.write_all(bytes).is_ok(),
        None => false,
    }
}

fn print(rt: &impl Print, line: Line) -> io::Result<()>
    requires { Printable line }
{
    rt.write_all(&line.bytes[..line.length])
}

// The line of an operation on a dossier.
fn print_of_dossier<F: Fn(&[u8]) -> Line>(
    rt: &(impl Env + Files + Print),
    line_of: F,
) -> io::Result<()>
    requires callable { F.IsAlwaysCallable line_of }
    requires fits { (dossier : _) (line : Line) → F.post line_of dossier line → Printable line }
{
    let mut dossier = large_buffer();
    let d = load(rt, 2, &mut dossier);
    print(rt, line_of(&dossier[..d]))
}

// The line of an operation on a dossier and another file, for which there is room.
fn print_of_pair<F: Fn(&[u8], &[u8]) -> Line>(
    rt: &(impl Env + Files + Print),
    room: &mut [u8],
    line_of: F,
) -> io::Result<()>
    requires callable { F.IsAlwaysCallable line_of }
    requires fits { (dossier : _) (other : _) (line : Line) → F.post line_of dossier other line → Printable line }
{
    let mut dossier = large_buffer();
    let d = load(rt, 2, &mut dossier);
    let n = load(rt, 3, room);
    print(rt, line_of(&dossier[..d], &room[..n]))
}

// A file is made only where there is a dossier or a unit to put there, and the line is printed once the file has it.
fn print_written(
    rt: &(impl Env + Files + Print),
    written: BuiltLine,
    argument: usize,
    out: &[u8],
) -> io::Result<()>
    requires length_in_bounds { written.length ≤ length out.now }
    requires printable { Printable written.line }
{
    let n = written.length;
    if 0 < n && !save(rt, argument, &out[..n]) {
        return rt.write_all(b"UNWRITTEN\n");
    }
    print(rt, written.line)
}

// The line of an operation that makes a dossier or a unit of one file.
fn print_of_written<F: Fn(&[u8], &mut [u8]) -> BuiltLine>(
    rt: &(impl Env + Files + Print),
    write: F,
) -> io::Result<()>
    requires callable { F.IsAlwaysCallable write }
    requires fits { (file : _) (out : _) (written : BuiltLine) (left : _) → F.post write file out written left → (written.length ≤ length left.now) × Printable written.line }
{
    let mut file = large_buffer();
    let mut out = built_buffer();
    let f = load(rt, 2, &mut file);
    let written = write(&file[..f], &mut out);
    print_written(rt, written, 3, &out)
}

// As the one before, with a bound: a closure that holds it would say of what it leaves only what no answer can name.
fn print_found(rt: &(impl Env + Files + Print), bound: u8) -> io::Result<()> {
    let mut unit = large_buffer();
    let mut out = built_buffer();
    let u = load(rt, 2, &mut unit);
    let found = find_line(&unit[..u], bound, &mut out);
    print_written(rt, found, 4, &out)
}

// The bound that a number becomes with one more digit behind it.
fn with_digit(number: u8, byte: u8) -> Option<u8>
    ensures { result ≡ bound_from number (byte ∷ []) }
{
    if !byte.is_ascii_digit() {
        return None;
    }
    number.checked_mul(10)?.checked_add(byte - b'0')
}

// Nothing but digits makes a bound, and no digits make none.
fn bound_given(digits: &[u8]) -> Option<u8>
    ensures { result ≡ bound_given digits.now }
{
    if digits.is_empty() {
        return None;
    }
    let mut number = 0;
    for &byte in digits {
        number = with_digit(number, byte)?;
    }
    Some(number)
}

fn print_usage(rt: &impl Print) -> io::Result<()> {
    rt.write_all(
        b"usage: bureau check D | build D OUT | run D U | compare D U | judge D S | cost D | find U BOUND OUT | import T U\n",
    )
}

// An operation on one file.
fn print_of_one(rt: &(impl Env + Files + Print), operation: &[u8]) -> io::Result<()> {
    match operation {
        b"check" => print_of_dossier(rt, check_line),
        b"cost" => print_of_dossier(rt, cost_line),
        _ => print_usage(rt),
    }
}

// An operation on two files.
fn print_of_two(rt: &(impl Env + Files + Print), operation: &[u8]) -> io::Result<()> {
    match operation {
        b"build" => print_of_written(rt, build_line),
        b"run" => print_of_pair(rt, &mut large_buffer(), trial_line),
        b"compare" => print_of_pair(rt, &mut large_buffer(), compare_line),
        b"judge" => print_of_pair(rt, &mut sheet_buffer(), judge_line),
        b"import" => print_of_written(rt, import_line),
        _ => print_usage(rt),
    }
}

// An operation on two files, with a number between their names.
fn print_of_three(rt: &(impl Env + Files + Print), operation: &[u8]) -> io::Result<()> {
    let mut digits = word_buffer();
    let n = put_argument(rt, 3, &mut digits);
    match (operation, bound_given(&digits[..n])) {
        (b"find", Some(bound)) => print_found(rt, bound),
        _ => print_usage(rt),
    }
}

// The program's own name and the operation come before the names of files.
fn main(rt: HostRuntime) -> io::Result<()> {
    let mut operation = word_buffer();
    let n = put_argument(&rt, 1, &mut operation);
    match word_count(&rt) {
        3 => print_of_one(&rt, &operation[..n]),
        4 => print_of_two(&rt, &operation[..n]),
        5 => print_of_three(&rt, &operation[..n]),
        _ => print_usage(&rt),
    }
}
