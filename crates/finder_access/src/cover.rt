// The access words of all states in order, each behind its length byte: measured, and written.
ghost use Rattle.std.specs.Prelude.{◌≡◌, ◌*◌, ◌≤◌, length};
ghost use mathlib.Core.List.{flat_map};
ghost use Rattle.rules.specs.Sizes.{most_states};
ghost use Rattle.rules.specs.Files.{UnitData, word_bytes};
ghost use Rattle.rules.specs.Find.{found_cover};
ghost use Rattle.theory.specs.Wrote.{Wrote};
ghost use Rattle.finder_access.specs.Reached.{Reaches, Lent, CoverFits};

use crate::spelling::{access_length, write_access};
use rules::GoldenState;

// How many bytes they take.
pub fn measure_cover(queue: &[u16], places: &[u8], states: u8) -> usize
    requires { Lent queue.now places.now × (states ≤ most_states) }
    ensures { ((u : UnitData) → Reaches u queue.now places.now → u.states ≡ states → result ≡ length (flat_map word_bytes (found_cover u))) × (result ≤ most_states * most_states) }
{
    let mut n = 0;
    for q in 0..states {
        n = n + 1 + access_length(queue, places, GoldenState::numbered(q));
    }
    n
}

// Writes them to out at the place `at`. The answer is the place after them.
pub fn write_cover(queue: &[u16], places: &[u8], states: u8, out: &mut [u8], at: usize) -> usize
    requires { CoverFits queue.now places.now states at (length out.old) }
    ensures { (u : UnitData) → Reaches u queue.now places.now → u.states ≡ states → Wrote out.old at (flat_map word_bytes (found_cover u)) out.new result }
{
    let mut next = at;
    for q in 0..states {
        next = write_access(queue, places, GoldenState::numbered(q), out, next);
    }
    next
}
