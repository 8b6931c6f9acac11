// Texts held against each other and copied, byte by byte.
#![tactic(auto)]

ghost use Rattle.std.specs.Prelude.{◌≡◌, ◌+◌, ◌≤◌, length};
ghost use Rattle.std.proofs.Math.Seq.{paste};
ghost use Rattle.rules.specs.Words.{same};

pub fn same_text(given: &[u8], name: &[u8]) -> bool
    ensures { result ≡ same given.now name.now }
{
    given == name
}

// The first n bytes of a text to out at the place at, byte by byte: the library's `copy_from_slice` would have the archive call `memmove`,
// which a caller in C may not have.
pub fn copy(text: &[u8], n: usize, out: &mut [u8], at: usize)
    requires { (n ≤ length text.now) × (at + n ≤ length out.old) }
    ensures { out.new ≡ paste out.old at text.now n }
{
    for i in 0..n {
        out[at + i] = text[i];
    }
}
