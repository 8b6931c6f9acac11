// The search for a needed word that begins no test (document 01, refusal 11). The tests stand in a trie. A node is marked
// when all that may follow its word was found in the trie, so that it is looked at once, however many words lead to it.
#![tactic(auto)]

ghost use Rattle.checker_search.specs.Blocks.{Searching, LackOf};

use checker_ways::{Way, begun, way_of_cover, way_of_middle};
use numbers::wide_link;
use reader::DossierShape;
use trie::{Nodes, mark};
use walker::word_end;

// The first needed word that begins no test, by the numbers of its cover word, its middle and its separating word: cover in file
// order outermost, then middle, then separating. Of equal separating words the first stands for all: `numbers` and `places` say which
// those are and where they stand. `kept` is for the nodes of the middles behind a cover word, of which there are `total`. The loops
// are labelled, and left from the innermost (docs/FORMS.md).
pub fn find_missing(
    bytes: &[u8],
    x: DossierShape,
    total: usize,
    nodes: Nodes,
    marks: &mut [u8],
    done: &mut [u8],
    kept: &mut [u16],
    numbers: &[u16],
    places: &[u16],
    n: usize,
) -> Option<(usize, usize, usize)>
    requires { Searching bytes.now x total nodes.label.now nodes.first.now nodes.next.now marks.old done.old kept.old numbers.now places.now n }
    ensures { LackOf bytes.now x result }
{
    let mut found = None;
    let mut after = x.cover;
    'cover: for c in 0..x.covers {
        let word = after;
        after = word_end(bytes, word);
        let from = match way_of_cover(bytes, word, nodes, done) {
            Way::Off => {
                found = Some((c, 0, 0));
                break 'cover;
            }
            Way::Known => {
                continue 'cover;
            }
            Way::To(node) => node,
        };
        'middle: for y in 0..total {
            let end = match way_of_middle(x.inputs, y, nodes, marks, kept, from) {
                Way::Off => {
                    found = Some((c, y, 0));
                    break 'cover;
                }
                Way::Known => {
                    continue 'middle;
                }
                Way::To(node) => node,
            };
            'separator: for e in 0..n {
                if begun(bytes, places[e], nodes, end) {
                    continue 'separator;
                }
                let s = wide_link(numbers[e]);
                found = Some((c, y, s));
                break 'cover;
            }
            mark(marks, end);
        }
        mark(done, from);
    }
    found
}
