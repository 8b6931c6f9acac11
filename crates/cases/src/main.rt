// Runs those worked pieces of document 01 that are not starred, and prints a line for each. The file stdout has what the
// document says.
#![tactic(auto)]

ghost use Rattle.std.specs.Prelude.{◌≡◌, ◌≤◌, length};

use builder::build;
use judge::judge;
use line::{run_line, write_refusal};
use rules::{Built, Costed, Judged, Refusal};
use runner::cost;
use std::io;

// Room for a dossier of one state, and for any line.
fn buffer() -> [u8; 4096]
    ensures { 4096 ≡ length result }
{
    [0; 4096]
}

fn print(rt: &impl Print, text: &[u8]) -> io::Result<()> {
    rt.write_all(text)
}

// The first bytes of a buffer.
fn print_front(rt: &impl Print, bytes: &[u8], n: usize) -> io::Result<()>
    requires { n ≤ length bytes.now }
{
    print(rt, &bytes[..n])
}

fn print_refusal(rt: &impl Print, r: Refusal) -> io::Result<()> {
    let mut out = buffer();
    let n = write_refusal(r, &mut out);
    print_front(rt, &out, n)
}

fn print_byte(rt: &impl Print, byte: u8) -> io::Result<()> {
    print!(rt; " {byte:02x}")
}

// The first bytes of a file as document 01 lists them, two hex digits each.
fn print_bytes(rt: &impl Print, bytes: &[u8], n: usize) -> io::Result<()>
    requires { n ≤ length bytes.now }
{
    for byte in &bytes[..n] {
        print_byte(rt, *byte)?;
    }
    print(rt, b"\n")
}

// V over the built dossier of G for m = 2.
fn too_many_states(rt: &impl Print) -> io::Result<()> {
    let golden =
        b"\x03\0\x02\x02\x02\x04\0\0\0\x01\0\0\x01\x01\0\x02\0\0\x01\x01\x01\0\x01\0\x03\0\x02\0\0\x03\x01\0\0\x03\x01\x01\0";
    let unit = b"\x02\0\x02\x03\x06\0\x02\0\x01\0\0\x01\x01\0\x02\0\x02\0";
    print(rt, b"V over the m = 2 dossier: ")?;
    let line = run_line(golden, unit);
    let bytes = line.bytes;
    let n = line.length;
    print_front(rt, &bytes, n)
}

// One state, one input, output 0, the empty word as cover and as separating word, m = 2. It has no tests yet. The built
// one has 20 bytes.
fn one_state(rt: &impl Print) -> io::Result<()> {
    let dossier = b"\x03\0\x01\x01\x02\x01\0\0\0\x01\0\0\x01\0\0\0\0";
    let mut out = buffer();
    print(rt, b"one state, m = 2: ")?;
    match build(dossier, &mut out) {
        Built::Written(n) => {
            print!(rt; "{n}")?;
            print_bytes(rt, &out, 20)
        }
        Built::Refused(r) => print_refusal(rt, r),
    }
}

// G's m = 2 dossier and a sheet of its three records.
fn judged(rt: &impl Print, sheet: &[u8]) -> io::Result<()> {
    let golden =
        b"\x03\0\x02\x02\x02\x04\0\0\0\x01\0\0\x01\x01\0\x02\0\0\x01\x01\x01\0\x01\0\x03\0\x02\0\0\x03\x01\0\0\x03\x01\x01\0";
    match judge(golden, sheet) {
        Judged::Agrees => print(rt, b"AGREES\n"),
        Judged::Deviates(_, _) => print(rt, b"DEVIATES\n"),
        Judged::Refused(r) => print_refusal(rt, r),
    }
}

// 00 answered 0 0, 100 answered 0 1 0 and 110 answered 0 0 1, in each order that three records can have.
fn any_order(rt: &impl Print) -> io::Result<()> {
    print(rt, b"records 0, 1, 2: ")?;
    judged(
        rt,
        b"\x03\0\x02\0\0\0\0\x03\x01\0\0\0\x01\0\x03\x01\x01\0\0\0\x01",
    )?;
    print(rt, b"records 0, 2, 1: ")?;
    judged(
        rt,
        b"\x03\0\x02\0\0\0\0\x03\x01\x01\0\0\0\x01\x03\x01\0\0\0\x01\0",
    )?;
    print(rt, b"records 1, 0, 2: ")?;
    judged(
        rt,
        b"\x03\0\x03\x01\0\0\0\x01\0\x02\0\0\0\0\x03\x01\x01\0\0\0\x01",
    )?;
    print(rt, b"records 1, 2, 0: ")?;
    judged(
        rt,
        b"\x03\0\x03\x01\0\0\0\x01\0\x03\x01\x01\0\0\0\x01\x02\0\0\0\0",
    )?;
    print(rt, b"records 2, 0, 1: ")?;
    judged(
        rt,
        b"\x03\0\x03\x01\x01\0\0\0\x01\x02\0\0\0\0\x03\x01\0\0\0\x01\0",
    )?;
    print(rt, b"records 2, 1, 0: ")?;
    judged(
        rt,
        b"\x03\0\x03\x01\x01\0\0\0\x01\x03\x01\0\0\0\x01\0\x02\0\0\0\0",
    )
}

// Whether the dossier that the first bytes of a file are is well formed, as its cost says.
fn print_cost(rt: &impl Print, file: &[u8], n: usize) -> io::Result<()>
    requires { n ≤ length file.now }
{
    match cost(&file[..n]) {
        Costed::Cost(tests, inputs) => { println!(rt; "{tests} tests, {inputs} inputs") }
        Costed::Refused(r) => print_refusal(rt, r),
    }
}

// A dossier of one input and no words. All states go to state 0 with output 0, so the bytes behind the numbers and the
// table's count are 0.
fn bound(rt: &impl Print, states: u8, bound: u8) -> io::Result<()> {
    let mut dossier = buffer();
    dossier[0] = 3;
    dossier[2] = 1;
    dossier[3] = states;
    dossier[4] = bound;
    dossier[5] = states;
    let length = 13 + 2 * (states as usize);
    print_cost(rt, &dossier, length)
}

// A dossier of one state and one input, whose cover is one word of inputs that are 0.
fn cover_word(rt: &impl Print, inputs: u8) -> io::Result<()> {
    let mut dossier = buffer();
    dossier[0] = 3;
    dossier[2] = 1;
    dossier[3] = 1;
    dossier[4] = 1;
    dossier[5] = 1;
    dossier[9] = 1;
    dossier[11] = inputs;
    let length = 16 + (inputs as usize);
    print_cost(rt, &dossier, length)
}

fn main(rt: HostRuntime) -> io::Result<()> {
    too_many_states(&rt)?;
    one_state(&rt)?;
    any_order(&rt)?;
    print(&rt, b"m = 64, n = 60: ")?;
    bound(&rt, 60, 64)?;
    print(&rt, b"m = 64, n = 59: ")?;
    bound(&rt, 59, 64)?;
    print(&rt, b"m = 1, n = 2: ")?;
    bound(&rt, 2, 1)?;
    print(&rt, b"m = 0, n = 1: ")?;
    bound(&rt, 1, 0)?;
    print(&rt, b"a cover word of 97 inputs: ")?;
    cover_word(&rt, 97)?;
    print(&rt, b"a cover word of 98 inputs: ")?;
    cover_word(&rt, 98)
}
