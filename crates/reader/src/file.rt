// What the three files are read alike in: how they begin and how they end.
ghost use Rattle.std.specs.Prelude.{◌≡◌, ◌<◌, ◌≤◌, length, drop, Result};
ghost use Rattle.rules.specs.Reading.{ending};
ghost use Rattle.reader_steps.specs.declared.Stop.{Stop};
ghost use Rattle.reader.specs.Shapes.{refused_in};
ghost use Rattle.reader.specs.Chains.{placed};

use reader_steps::Stop;
use rules::{Fault, File, Refusal};

// A file that is too long is refused before any byte of it is read. Whatever stops the reading refuses the file.
pub fn read_file<T, F: FnOnce() -> Result<T, Stop>>(
    bytes: &[u8],
    file: File,
    most: usize,
    read: F,
) -> Result<T, Refusal>
    requires { F.IsAlwaysCallable read }
    ensures long { most < length bytes.now → result ≡ Err (Refusal.Malformed Fault.TooLong file 0) }
    ensures short { length bytes.now ≤ most → (r : Result T Stop) × F.post read r × (result ≡ refused_in file r) }
{
    if most < bytes.len() {
        return Err(Refusal::Malformed(Fault::TooLong, file, 0));
    }
    read().map_err(|stop| stop.refusal(file))
}

// Nothing may follow the last section: then the file was read as `whole`.
pub fn ending_at<T: Copy>(bytes: &[u8], whole: T, p: usize) -> Result<T, Stop>
    ensures { result ≡ placed (ending whole p (drop p bytes.now)) }
{
    if p < bytes.len() {
        return Err(Stop {
            fault: Fault::Trailing,
            place: p,
        });
    }
    Ok(whole)
}
