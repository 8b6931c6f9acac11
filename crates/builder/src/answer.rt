// The answers of build (document 01, refusals 1 to 10 and 17).
ghost use Rattle.std.specs.Prelude.{◌≡◌, length};
ghost use Rattle.rules.specs.Promises.{BuildPromise};
ghost use Rattle.builder_copyist.specs.Ready.{Buildable};

use builder_copyist::{OVER_SIZE, build_planted};
use builder_grower::grow_needed;
use reader::DossierShape;
use rules::{Built, Refusal};
use soundness::read_sound;
use trie::Nodes;
use trie_filing::NODES;

// Over arrays with a place for each node. Where the needed words have more nodes, their bytes are over the size too.
fn build_in(
    bytes: &[u8],
    x: DossierShape,
    label: &mut [u8],
    first: &mut [u16],
    next: &mut [u16],
    done: &mut [u8],
    numbers: &mut [u16],
    places: &mut [u16],
    out: &mut [u8],
) -> Built
    requires buildable { Buildable bytes.now x }
    requires label_len { (length label.old ≡ 65536) × (length first.old ≡ 65536) × (length next.old ≡ 65536) }
    requires done_len { (length done.old ≡ 65536) × (length numbers.old ≡ 65536) × (length places.old ≡ 65536) }
    ensures { BuildPromise bytes.now out.old result out.new }
{
    match grow_needed(bytes, x, label, first, next, done, numbers, places) {
        Some(_) => build_planted(bytes, x, Nodes { label, first, next }, out),
        None => Built::Refused(Refusal::NoRoom(OVER_SIZE)),
    }
}

// Of a dossier that none of 1 to 10 refuses.
fn build_sound(bytes: &[u8], x: DossierShape, out: &mut [u8]) -> Built
    requires { Buildable bytes.now x }
    ensures { BuildPromise bytes.now out.old result out.new }
{
    let mut label = [0; NODES];
    let mut first = [0; NODES];
    let mut next = [0; NODES];
    let mut done = [0; NODES];
    let mut numbers = [0; NODES];
    let mut places = [0; NODES];
    build_in(
        bytes,
        x,
        &mut label,
        &mut first,
        &mut next,
        &mut done,
        &mut numbers,
        &mut places,
        out,
    )
}

pub fn build(dossier: &[u8], out: &mut [u8]) -> Built
    ensures { BuildPromise dossier.now out.old result out.new }
{
    match read_sound(dossier) {
        Ok(x) => build_sound(dossier, x, out),
        Err(r) => Built::Refused(r),
    }
}
