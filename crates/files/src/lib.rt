// Files read to the front of a buffer, over any file system: nothing here reaches outside the program by itself.
#![tactic(auto)]

ghost use Rattle.std.specs.Prelude.{◌≡◌, length, take};
ghost use Rattle.std.specs.Io.KnownBytes.{Consumes};
ghost use Rattle.files.specs.Fronts.{IsPrefixLen};

use std::fs;
use std::io::Read;
use std::rt::Files;

// One byte more than a dossier, a unit or a text may have.
pub const FILE_ROOM: usize = 65536;

pub fn large_buffer() -> [u8; FILE_ROOM]
    ensures { 65536 ≡ length result }
{
    [0; FILE_ROOM]
}

// The file of that name, to be read.
pub fn open_read<R: Files>(rt: &R, name: &[u8]) -> Option<R::File> {
    let text = str::from_utf8(name).ok()?;
    fs::open(rt, text).ok()
}

// The file of that name, to be written: made where it is missing, and emptied where it is not. One function that is passed the library's
// call would be longer than both.
pub fn open_overwrite<R: Files>(rt: &R, name: &[u8]) -> Option<R::File> {
    let text = str::from_utf8(name).ok()?;
    fs::create(rt, text).ok()
}

// Reads until buf is full, the file ends or a read fails, and returns how many bytes it put at the start of buf: the first
// that the file had left. How far a read gets is the file's to say, so no range counts the turns.
pub fn read_full<F: Read>(file: &mut F, buf: &mut [u8]) -> usize
    ensures within { IsPrefixLen result buf.new }
    ensures bytes { Consumes (F.remaining file.old) (F.remaining file.new) (take result buf.new) }
{
    let mut done = 0;
    while done < buf.len() {
        match file.read(&mut buf[done..]) {
            Ok(n) if 0 < n => done += n,
            _ => break,
        }
    }
    done
}
