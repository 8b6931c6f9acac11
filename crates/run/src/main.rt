// The program of document 01: reads the files `golden` and `unit` from the folder that it is started in, and prints one
// line.
#![tactic(auto)]

ghost use Rattle.files.specs.Fronts.{IsPrefixLen};

use files::{large_buffer, open_read, read_full};
use line::run_line;
use std::io;
use std::rt::Files;

// A file's first bytes, as many as buf holds, which is more than a file may have. A file that cannot be opened counts as
// empty, and one that cannot be read to its end as ended there.
fn load(rt: &impl Files, path: &[u8], buf: &mut [u8]) -> usize
    ensures { IsPrefixLen result buf.new }
{
    match open_read(rt, path) {
        Some(mut file) => read_full(&mut file, buf),
        None => 0,
    }
}

fn report(rt: &impl Print, golden: &[u8], unit: &[u8]) -> io::Result<()> {
    let line = run_line(golden, unit);
    let bytes = line.bytes;
    let n = line.length;
    rt.write_all(&bytes[..n])
}

fn main(rt: HostRuntime) -> io::Result<()> {
    let mut golden = large_buffer();
    let mut unit = large_buffer();
    let g = load(&rt, b"golden", &mut golden);
    let u = load(&rt, b"unit", &mut unit);
    report(&rt, &golden[..g], &unit[..u])
}
