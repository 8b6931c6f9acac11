// The numbers of a text's states (docs/KISS2.md, "What comes of it"). A table holds them: for each name, by its number among the names as
// they were met, one more than its number as a state, or 0 where it has none yet. So the table is a list of numbers, of
// which the unit is written.
#![tactic(auto)]

ghost use Rattle.std.specs.Prelude.{◌≡◌, List, ◌++◌, not, ◌+◌, ◌≤◌, ◌<◌, length};
ghost use Rattle.rules.specs.Lists.{◌∈◌, keep};
ghost use Rattle.rules.specs.Sizes.{most_states};
ghost use Rattle.rules.specs.Words.{is_in};
ghost use Rattle.rules.specs.Needed.{distinct};
ghost use Rattle.rules.specs.Kiss2.{Field, place_in};
ghost use Rattle.theory.specs.Kiss2Lines.{with_name};
ghost use Rattle.importer_ranks.specs.Ranks.{unranked, RanksAt};

// No name has a number yet.
pub fn no_ranks() -> [u8; 64]
    ensures { result ≡ unranked }
{
    [0u8; 64]
}

// Gives the name number j the next number, unless it has one; answers how many names have one then. The bound is what a loop over
// all names can tell of that without knowing the names.
pub fn give_rank(ranks: &mut [u8], j: usize, ranked: usize) -> usize
    requires { (length ranks.old ≡ most_states) × (j < most_states) × (ranked < 128) }
    ensures { ((names order : List Field) (n : Field) → RanksAt ranks.old names order → n ∈ names → j ≡ place_in names n → ranked ≡ length order → RanksAt ranks.new names (with_name order n) × (result ≡ length (with_name order n))) × (result ≤ ranked + 1) }
{
    if ranks[j] != 0 {
        return ranked;
    }
    let next = ranked + 1;
    ranks[j] = next as u8;
    next
}

// Gives each name a number that has none, as the names were met; answers how many names have one then.
pub fn give_ranks(ranks: &mut [u8], count: usize, ranked: usize) -> usize
    requires { (length ranks.old ≡ most_states) × (count ≤ most_states) × (ranked ≤ most_states) }
    ensures { (names order : List Field) → RanksAt ranks.old names order → distinct names ≡ names → count ≡ length names → ranked ≡ length order → RanksAt ranks.new names (order ++ keep (λ n. not (is_in n order)) names) × (result ≡ length names) }
{
    let mut all = ranked;
    for j in 0..count {
        all = give_rank(ranks, j, all);
    }
    all
}
