// The byte for m of a dossier.
ghost use Rattle.std.specs.Prelude.{◌≡◌, drop};
ghost use Rattle.rules.specs.Sizes.{bound_of, bound_good};
ghost use Rattle.reader_steps.specs.Steps.{number_read};
ghost use Rattle.reader.specs.Chains.{bound_number};

use reader_steps::{Stop, judged_at};
use rules::{Fault, MOST_ADDED_STATES, MOST_STATES};

// The bound that the byte for m stands for: 0 is the default, as many states as the golden has.
pub fn bound_of(states: u8, byte: u8) -> u8
    ensures { result ≡ bound_of states byte }
{
    if byte == 0 { states } else { byte }
}

// Whether a byte can be the one for m (document 01, refusal 3).
pub fn bound_in_range(states: u8, byte: u8) -> bool
    ensures { result ≡ bound_good states byte }
{
    let bound = bound_of(states, byte);
    if bound < states {
        return false;
    }
    bound <= MOST_STATES && bound - states <= MOST_ADDED_STATES
}

// The byte for m.
pub fn bound_at(bytes: &[u8], states: u8, p: usize) -> Result<(u8, usize), Stop>
    ensures { result ≡ number_read (bound_number states p (drop p bytes.now)) }
{
    judged_at(
        bytes,
        |byte| bound_in_range(states, byte),
        Fault::BadNumbers,
        p,
    )
}
