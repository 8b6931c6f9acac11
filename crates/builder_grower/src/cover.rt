// The needed words of a dossier, one cover word after the other.
ghost use Rattle.std.specs.Prelude.{◌≡◌, ◌<◌, length};
ghost use Rattle.rules.specs.Files.{DossierData};
ghost use Rattle.rules.specs.Operations.{fine, read_dossier};
ghost use Rattle.reader.specs.Places.{word_at, words_at};
ghost use Rattle.walker.specs.Walks.{Whole};
ghost use Rattle.trie.specs.Model.{Trie, size};
ghost use Rattle.trie.specs.Holds.{Holds};
ghost use Rattle.soundness.specs.Lent.{Lent};
ghost use Rattle.builder_grower.specs.Grown.{GrownOf};
ghost use Rattle.builder_branches.specs.Growing.{Separator, Separators, Listed, Done, Ready, BranchOf};

use builder_branches::grow;
use middles::longest_middle;
use reader::DossierShape;
use trie::{Nodes, clear_marks, start};
use trie_filing::{find_firsts, put_word, put_words};
use walker::word_end;

// Grows all that is needed behind the cover word at a place, where middles may have `left` inputs.
fn grow_cover(
    bytes: &[u8],
    word: usize,
    inputs: u8,
    places: &[u16],
    n: usize,
    label: &mut [u8],
    first: &mut [u16],
    next: &mut [u16],
    done: &mut [u8],
    nodes: usize,
    left: u8,
) -> Option<usize>
    requires whole { Whole bytes.now word × Separators bytes.now places.now n }
    requires ready { Ready inputs (Separator bytes.now places.now n) label.old first.old next.old done.old nodes }
    requires left_bound { (left < 255) × (length done.old ≡ length label.old) }
    ensures { (t : Trie) → Holds t label.old first.old next.old → nodes ≡ size t → Done inputs (Separator bytes.now places.now n) t done.old → BranchOf bytes.now places.now n inputs left (word_at bytes.now word) t label.new first.new next.new done.new result }
{
    let (node, m) = put_word(bytes, word, label, first, next, nodes, 0)?;
    grow(
        bytes, inputs, places, n, label, first, next, done, m, node, left,
    )
}

// Grows all needed words from an empty trie, where the first n places are those of the separating words.
fn grow_covers(
    bytes: &[u8],
    x: DossierShape,
    places: &[u16],
    n: usize,
    label: &mut [u8],
    first: &mut [u16],
    next: &mut [u16],
    done: &mut [u8],
) -> Option<usize>
    requires lent { (Lent bytes.now x) × (0 < n) × Listed bytes.now places.now n (words_at bytes.now x.separating x.separators) }
    requires label_len { (length label.old ≡ 65536) × (length first.old ≡ 65536) × (length next.old ≡ 65536) × (length done.old ≡ 65536) }
    ensures { (d : DossierData) → read_dossier bytes.now ≡ fine d → GrownOf d label.new first.new next.new result }
{
    let inputs = x.inputs;
    let left = longest_middle(x);
    clear_marks(done);
    let mut nodes = start(label, first, next);
    let mut word = x.cover;
    for _ in 0..x.covers {
        nodes = grow_cover(
            bytes, word, inputs, places, n, label, first, next, done, nodes, left,
        )?;
        word = word_end(bytes, word);
    }
    Some(nodes)
}

// Grows all needed words. The separating words go through the trie first, to find those that differ. The answer is how many nodes the
// trie has then; or none, where there is no room.
pub fn grow_needed(
    bytes: &[u8],
    x: DossierShape,
    label: &mut [u8],
    first: &mut [u16],
    next: &mut [u16],
    done: &mut [u8],
    numbers: &mut [u16],
    places: &mut [u16],
) -> Option<usize>
    requires lent { Lent bytes.now x }
    requires label_len { (length label.old ≡ 65536) × (length first.old ≡ 65536) × (length next.old ≡ 65536) }
    requires done_len { (length done.old ≡ 65536) × (length numbers.old ≡ 65536) × (length places.old ≡ 65536) }
    ensures { (d : DossierData) → read_dossier bytes.now ≡ fine d → GrownOf d label.new first.new next.new result }
{
    let inputs = x.inputs;
    let from = x.separating;
    let separators = x.separators;
    put_words(bytes, from, inputs, separators, label, first, next);
    let n = find_firsts(
        bytes,
        from,
        inputs,
        separators,
        Nodes { label, first, next },
        done,
        numbers,
        places,
    );
    if n == 0 {
        return Some(start(label, first, next));
    }
    grow_covers(bytes, x, places, n, label, first, next, done)
}
