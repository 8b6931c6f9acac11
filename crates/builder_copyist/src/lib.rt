// The built dossier over a trie of the needed words, measured and then written (document 01, "Build" and refusal 17).
#![tactic(auto)]

ghost use Rattle.rules.specs.Promises.{BuildPromise};
ghost use Rattle.builder_copyist.specs.Ready.{Planted};

use crate::write::write_built;
use reader::DossierShape;
use rules::{Built, MOST_DOSSIER_BYTES, Refusal};
use trie::Nodes;
use trie_lister::measure;

mod write;

// The answer for any dossier that is over its size.
pub const OVER_SIZE: usize = 65536;

// Over a trie of the needed words. The words are measured first, so that nothing is written unless all of it fits.
pub fn build_planted(bytes: &[u8], x: DossierShape, nodes: Nodes, out: &mut [u8]) -> Built
    requires { Planted bytes.now x nodes.label.now nodes.first.now nodes.next.now }
    ensures { BuildPromise bytes.now out.old result out.new }
{
    let Some((words, size)) = measure(nodes, x.inputs, 0, 0, MOST_DOSSIER_BYTES, 0, x.tests) else {
        return Built::Refused(Refusal::NoRoom(OVER_SIZE));
    };
    if out.len() < size {
        return Built::Refused(Refusal::NoRoom(size));
    }
    write_built(bytes, x, nodes, words, out);
    Built::Written(size)
}
