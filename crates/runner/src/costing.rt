// What a dossier's tests cost: how many they are, and how many inputs they have together.
ghost use Rattle.std.specs.Prelude.{◌≡◌};
ghost use Rattle.rules.specs.Promises.{CostPromise};
ghost use Rattle.reader.specs.Places.{words_at, WordsAt};
ghost use Rattle.runner.specs.Costs.{lengths};

use reader::read_dossier;
use rules::Costed;
use walker::{word_end, word_length};

// The sum of the lengths of the words from a place on. The byte that says a word's length is no part of it.
fn sum_lengths(bytes: &[u8], place: usize, inputs: u8, count: usize) -> usize
    requires { WordsAt bytes.now place inputs count }
    ensures { result ≡ lengths (words_at bytes.now place count) }
{
    let mut sum = 0;
    let mut word = place;
    for _ in 0..count {
        sum += word_length(bytes, word);
        word = word_end(bytes, word);
    }
    sum
}

pub fn cost(dossier: &[u8]) -> Costed
    ensures { CostPromise dossier.now result }
{
    match read_dossier(dossier) {
        Ok(x) => {
            let sum = sum_lengths(dossier, x.tests, x.inputs, x.count);
            Costed::Cost(x.count, sum)
        }
        Err(r) => Costed::Refused(r),
    }
}
