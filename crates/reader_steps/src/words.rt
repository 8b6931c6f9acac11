// Words, and sections of words.
ghost use Rattle.std.specs.Prelude.{◌≡◌, drop};
ghost use Rattle.rules.specs.Reading.{many, word, words};
ghost use Rattle.reader_steps.specs.Steps.{number_read, step, section, word_length, input};

use crate::steps::{count_at, judged_at, repeat};
use crate::{Section, Stop};
use numbers::wide;
use rules::Fault;

// The length byte of a word that may have `most` inputs.
pub fn length_at(bytes: &[u8], most: u8, p: usize) -> Result<(u8, usize), Stop>
    ensures { result ≡ number_read (word_length most p (drop p bytes.now)) }
{
    judged_at(bytes, |length| length <= most, Fault::BadWord, p)
}

fn input_at(bytes: &[u8], inputs: u8, p: usize) -> Result<usize, Stop>
    ensures { result ≡ step (input inputs p (drop p bytes.now)) }
{
    let (_, next) = judged_at(bytes, |i| i < inputs, Fault::BadWord, p)?;
    Ok(next)
}

pub fn inputs_at(bytes: &[u8], inputs: u8, count: u8, at: usize) -> Result<usize, Stop>
    ensures { result ≡ step (many (input inputs) count at (drop at bytes.now)) }
{
    repeat(|p| input_at(bytes, inputs, p), wide(count), at)
}

fn word_at(bytes: &[u8], inputs: u8, most: u8, p: usize) -> Result<usize, Stop>
    ensures { result ≡ step (word inputs most p (drop p bytes.now)) }
{
    let (length, first) = length_at(bytes, most, p)?;
    inputs_at(bytes, inputs, length, first)
}

// A section of words of at most `most` inputs: their count, then the words.
pub fn words_at(bytes: &[u8], inputs: u8, most: u8, p: usize) -> Result<Section, Stop>
    ensures { result ≡ section p (words inputs most p (drop p bytes.now)) }
{
    let (count, first) = count_at(bytes, p)?;
    let next = repeat(|p| word_at(bytes, inputs, most, p), count, first)?;
    Ok(Section { first, count, next })
}
