// Whether a dossier's tests are enough (document 01, refusal 11).
#![tactic(auto)]

ghost use Rattle.std.specs.Prelude.{◌≡◌, length};
ghost use Rattle.rules.specs.Operations.{fine};
ghost use Rattle.soundness.specs.Lent.{Lent, sound_of, finding_of};
ghost use Rattle.checker_search.specs.Blocks.{enough_of, LackOf};
ghost use Rattle.checker_enough.specs.Begun.{Begun};

use checker_search::find_missing;
use middles::{longest_middle, no_inputs};
use reader::DossierShape;
use rules::Refusal;
use trie::{Nodes, clear_marks};
use trie_filing::{NODES, find_firsts, put_words};

// The middles that others grow from: 16 inputs have 69,905 words of at most four.
const GROWING: usize = 69905;

// The first needed word that begins no test, over arrays with a place for each node. The separating words go through them
// before the tests do, to find those that are looked for once only.
fn search_in(
    bytes: &[u8],
    x: DossierShape,
    total: usize,
    label: &mut [u8],
    first: &mut [u16],
    next: &mut [u16],
    marks: &mut [u8],
    done: &mut [u8],
    kept: &mut [u16],
    numbers: &mut [u16],
    places: &mut [u16],
) -> Option<(usize, usize, usize)>
    requires begun { Begun bytes.now x total }
    requires label_len { (length label.old ≡ 65536) × (length first.old ≡ 65536) × (length next.old ≡ 65536) }
    requires marks_len { (length marks.old ≡ 65536) × (length done.old ≡ 65536) × (length kept.old ≡ 69905) × (length numbers.old ≡ 65536) × (length places.old ≡ 65536) }
    ensures { LackOf bytes.now x result }
{
    let inputs = x.inputs;
    let from = x.separating;
    let separators = x.separators;
    put_words(bytes, from, inputs, separators, label, first, next);
    let n = find_firsts(
        bytes,
        from,
        inputs,
        separators,
        Nodes { label, first, next },
        marks,
        numbers,
        places,
    );
    put_words(bytes, x.tests, inputs, x.count, label, first, next);
    clear_marks(marks);
    clear_marks(done);
    let nodes = Nodes { label, first, next };
    find_missing(
        bytes, x, total, nodes, marks, done, kept, numbers, places, n,
    )
}

// The arrays, and the search in them.
fn find_lack(bytes: &[u8], x: DossierShape, total: usize) -> Option<(usize, usize, usize)>
    requires { Begun bytes.now x total }
    ensures { LackOf bytes.now x result }
{
    let mut label = [0; NODES];
    let mut first = [0; NODES];
    let mut next = [0; NODES];
    let mut marks = [0; NODES];
    let mut done = [0; NODES];
    let mut kept = [0; GROWING];
    let mut numbers = [0; NODES];
    let mut places = [0; NODES];
    search_in(
        bytes,
        x,
        total,
        &mut label,
        &mut first,
        &mut next,
        &mut marks,
        &mut done,
        &mut kept,
        &mut numbers,
        &mut places,
    )
}

// The first needed word that begins no test, of a dossier that none of 7 to 10 refuses.
pub fn find_lacking(bytes: &[u8], x: DossierShape) -> Result<(), Refusal>
    requires lent { Lent bytes.now x }
    requires bytes_value { sound_of bytes.now ≡ fine tt }
    ensures { result ≡ finding_of (enough_of bytes.now) }
{
    if x.count == 0 {
        return Err(Refusal::Missing(0, no_inputs(), 0));
    }
    let longest = longest_middle(x);
    let total = middles::count(x.inputs, longest);
    let Some((c, y, s)) = find_lack(bytes, x, total) else {
        return Ok(());
    };
    let m = middles::middle(x.inputs, longest, y);
    Err(Refusal::Missing(c, m, s))
}
