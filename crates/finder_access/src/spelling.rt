// An access word, read back through the queue.
ghost use Rattle.std.specs.Prelude.{◌≡◌, ℕ, ◌+◌, ◌≤◌, ◌<◌, length};
ghost use Rattle.std.proofs.lemmas.List.Edits.{sets};
ghost use Rattle.rules.specs.Sizes.{most_states};
ghost use Rattle.rules.specs.Words.{Word};
ghost use Rattle.rules.specs.Files.{UnitData, word_bytes};
ghost use Rattle.rules.specs.Find.{access_word, word_of};
ghost use Rattle.theory.specs.Wrote.{Wrote};
ghost use Rattle.finder_access.specs.Queue.{Falls, Spelt, Depth};
ghost use Rattle.finder_access.specs.Reached.{Reaches, Lent, WordFits};

use crate::queue::{input_at, parent_at, place_of};
use rules::GoldenState;

// How many inputs lead to an entry of the queue.
fn word_length(queue: &[u16], place: usize) -> usize
    requires { (length queue.now ≡ most_states) × (place < most_states) × Falls queue.now (place + 1) }
    ensures { ((word : ℕ → Word) → Spelt queue.now (place + 1) word → result ≡ length (word place)) × (result ≤ place) }
{
    let mut at = place;
    let mut n = 0;
    // Each entry leads to the one that it was met from.
    while 0 < at {
        at = parent_at(queue, at);
        n += 1;
    }
    n
}

// Writes the inputs that lead to an entry, of which there are `len`, to out at the place `start`: the last first.
fn write_word(queue: &[u16], place: usize, len: usize, out: &mut [u8], start: usize)
    requires queue_len { (length queue.now ≡ most_states) × (place < most_states) × Depth queue.now place len }
    requires len_in_bounds { start + len ≤ length out.old }
    ensures { (word : ℕ → Word) → Spelt queue.now (place + 1) word → out.new ≡ sets out.old start (word place) }
{
    let mut at = place;
    let mut n = 0;
    while 0 < at {
        n += 1;
        out[start + (len - n)] = input_at(queue, at).number();
        at = parent_at(queue, at);
    }
}

// How many inputs the access word of a state has.
pub fn access_length(queue: &[u16], places: &[u8], state: GoldenState) -> usize
    requires { Lent queue.now places.now × (state.0 < most_states) }
    ensures { ((u : UnitData) → Reaches u queue.now places.now → result ≡ length (word_of (access_word u state.0))) × (result < most_states) }
{
    word_length(queue, place_of(places, state))
}

// Writes the access word of a state behind its length byte to out at the place `at`. The answer is the place after it.
pub fn write_access(
    queue: &[u16],
    places: &[u8],
    state: GoldenState,
    out: &mut [u8],
    at: usize,
) -> usize
    requires { WordFits queue.now places.now state.0 at (length out.old) }
    ensures { (u : UnitData) → Reaches u queue.now places.now → Wrote out.old at (word_bytes (word_of (access_word u state.0))) out.new result }
{
    let place = place_of(places, state);
    let len = word_length(queue, place);
    out[at] = len as u8;
    write_word(queue, place, len, out, at + 1);
    at + 1 + len
}
