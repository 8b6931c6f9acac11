// The telling word, read back through the queue.
ghost use Rattle.std.specs.Prelude.{◌≡◌, [], ◌∷◌, ◌++◌, ◌+◌, ◌≤◌, ◌<◌, length};
ghost use Rattle.std.proofs.Math.Option.{some};
ghost use Rattle.rules.specs.Operations.{overwritten};
ghost use Rattle.comparer_pairs.specs.Pairs.{pairs};
ghost use Rattle.comparer_pairs.specs.Queue.{word_to, Falls};
ghost use Rattle.comparer.specs.Found.{Answers};

use comparer_pairs::{input_at, parent_at};
use rules::{Compared, Input, Refusal};

// How many inputs lead to an entry of the queue.
fn word_length(queue: &[u32], place: usize) -> usize
    requires { (length queue.now ≡ pairs) × (place < pairs) × Falls queue.now (place + 1) }
    ensures { (result ≡ length (word_to queue.now place)) × (result ≤ place) }
{
    let mut at = place;
    let mut n = 0;
    while 0 < at {
        at = parent_at(queue, at);
        n += 1;
    }
    n
}

// Writes the inputs that lead to an entry at the front of the output. There are `len` of them.
fn write_word(queue: &[u32], place: usize, len: usize, out: &mut [u8])
    requires queue_len { (length queue.now ≡ pairs) × (place < pairs) × Falls queue.now (place + 1) }
    requires len_value { (len ≡ length (word_to queue.now place)) × (len ≤ length out.old) }
    ensures { out.new ≡ overwritten (word_to queue.now place) out.old }
{
    let mut at = place;
    let mut left = len;
    while 0 < at {
        left -= 1;
        out[left] = input_at(queue, at).number();
        at = parent_at(queue, at);
    }
}

// Writes the inputs that lead to an entry, and one more, if there is room for them.
pub fn write_telling(queue: &[u32], place: usize, input: Input, out: &mut [u8]) -> Compared
    requires { (length queue.now ≡ pairs) × (place < pairs) × Falls queue.now (place + 1) }
    ensures { Answers (some (word_to queue.now place ++ (input.0 ∷ []))) out.old result out.new }
{
    let before = word_length(queue, place);
    let len = before + 1;
    if out.len() < len {
        return Compared::Refused(Refusal::NoRoom(len));
    }
    out[before] = input.number();
    write_word(queue, place, before, out);
    Compared::Differs(len)
}
