// Numbers of files and of arrays made as wide as places are. A cast asks for a proof where it stands; a call does not.
#![tactic(auto)]

ghost use Rattle.std.specs.Prelude.{◌≡◌, ◌<◌};

// A byte of a file.
pub fn wide(byte: u8) -> usize
    ensures { (result ≡ byte) × (result < 256) }
{
    byte as usize
}

// A link between nodes of a trie, or a place in a dossier.
pub fn wide_link(link: u16) -> usize
    ensures { result ≡ link }
{
    link as usize
}

// An entry of a queue.
pub fn wide_entry(entry: u32) -> usize
    ensures { result ≡ entry }
{
    entry as usize
}

// A byte as a part of a packed answer.
pub fn packed_byte(byte: u8) -> u64
    ensures { (result ≡ byte) × (result < 256) }
{
    byte as u64
}
