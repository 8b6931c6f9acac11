// What build writes, once it is known that there is room for all of it (document 01, "Build").
ghost use Rattle.std.specs.Prelude.{◌+◌, ◌/◌, ◌%◌, ◌≤◌, ◌<◌, ◌≡◌, ◌++◌, length, take, set};
ghost use Rattle.rules.specs.Files.{count_bytes};
ghost use Rattle.rules.specs.Operations.{overwritten};
ghost use Rattle.builder_copyist.specs.Ready.{Fitting, built_bytes};

use reader::DossierShape;
use texts::copy;
use trie::Nodes;
use trie_lister::list;

// A count of words to out at the place at, low byte first.
fn write_count(out: &mut [u8], at: usize, words: usize)
    requires { (at + 1 < length out.old) × (words < 65536) }
    ensures { out.new ≡ set (set out.old at (words % 256)) (at + 1) (words / 256) }
{
    out[at] = (words % 256) as u8;
    out[at + 1] = (words / 256) as u8;
}

// The first bytes of the dossier, as they stand, and behind them a count of words.
fn write_front(bytes: &[u8], front: usize, words: usize, out: &mut [u8])
    requires { (front ≤ length bytes.now) × (front + 2 ≤ length out.old) × (words < 65536) }
    ensures { out.new ≡ overwritten (take front bytes.now ++ count_bytes words) out.old }
{
    copy(bytes, front, out, 0);
    write_count(out, front, words);
}

// The whole dossier, with the maximal words of the trie for its tests. A word has no more inputs than a length byte can say.
pub fn write_built(bytes: &[u8], x: DossierShape, nodes: Nodes, words: usize, out: &mut [u8])
    requires { Fitting bytes.now x nodes.label.now nodes.first.now nodes.next.now words (length out.old) }
    ensures { out.new ≡ overwritten (built_bytes bytes.now) out.old }
{
    let tests = x.tests;
    let mut path = [0; 255];
    write_front(bytes, tests - 2, words, out);
    list(nodes, x.inputs, &mut path, out, tests);
}
