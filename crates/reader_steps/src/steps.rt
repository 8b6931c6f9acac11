// The steps by which every file is read. Each is given the place to read from and answers the place after what it read, with
// what was read where that matters. None asks which file it is: who reads the file says so when it refuses.
ghost use Rattle.std.specs.Prelude.{◌≡◌, ℕ, Bool, ◌^◌, drop, Result};
ghost use Rattle.rules.specs.Reading.{byte, judged, count, output, many};
ghost use Rattle.reader_steps.specs.declared.Stop.{Stop};
ghost use Rattle.reader_steps.specs.Steps.{Gives, number_read, step, repeated};

use crate::Stop;
use numbers::wide;
use rules::Fault;

// The one step that looks at the bytes, so the one that finds a file cut short.
pub fn byte_at(bytes: &[u8], p: usize) -> Result<(u8, usize), Stop>
    ensures { result ≡ number_read (byte p (drop p bytes.now)) }
{
    if bytes.len() <= p {
        return Err(Stop {
            fault: Fault::CutShort,
            place: p,
        });
    }
    Ok((bytes[p], p + 1))
}

// A byte that is judged as soon as it is read.
pub fn judged_at<F: Fn(u8) -> bool>(
    bytes: &[u8],
    good: F,
    fault: Fault,
    p: usize,
) -> Result<(u8, usize), Stop>
    requires { F.IsAlwaysCallable good }
    ensures { (test : ℕ → Bool) → Gives 256 (F.post good) test
        → result ≡ number_read (judged test fault byte p (drop p bytes.now)) }
{
    let (b, next) = byte_at(bytes, p)?;
    if good(b) {
        Ok((b, next))
    } else {
        Err(Stop { fault, place: p })
    }
}

// Two bytes, low byte first.
pub fn count_at(bytes: &[u8], p: usize) -> Result<(usize, usize), Stop>
    ensures { result ≡ number_read (count p (drop p bytes.now)) }
{
    let (low, middle) = byte_at(bytes, p)?;
    let (high, next) = byte_at(bytes, middle)?;
    Ok((wide(low) + 256 * wide(high), next))
}

// Any byte is an output.
pub fn output_at(bytes: &[u8], p: usize) -> Result<usize, Stop>
    ensures { result ≡ step (output p (drop p bytes.now)) }
{
    let (_, next) = byte_at(bytes, p)?;
    Ok(next)
}

// The same step so many times, each from where the one before it ended. A count may say more than the file has: the first
// step that stops ends it.
pub fn repeat<F: Fn(usize) -> Result<usize, Stop>>(
    one: F,
    count: usize,
    at: usize,
) -> Result<usize, Stop>
    requires { F.IsAlwaysCallable one }
    ensures { (next : ℕ → Result ℕ Stop) → Gives (2 ^ 64) (F.post one) next
        → result ≡ repeated next count at }
{
    let mut p = at;
    for _ in 0..count {
        p = one(p)?;
    }
    Ok(p)
}

pub fn outputs_at(bytes: &[u8], count: u8, at: usize) -> Result<usize, Stop>
    ensures { result ≡ step (many output count at (drop at bytes.now)) }
{
    repeat(|p| output_at(bytes, p), wide(count), at)
}
