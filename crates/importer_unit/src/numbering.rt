// The names in the order of their numbers.
ghost use Rattle.std.specs.Prelude.{◌≡◌, List, length};
ghost use Rattle.rules.specs.Kiss2.{Field};
ghost use Rattle.importer_unit.specs.Numbered.{RanksIn, Ranking, NumberedAt};

use numbers::wide;

// Where a name's rank is the number of its state and one more, the name of each state's number.
pub fn number_states(ranks: &[u8], count: usize) -> [u8; 64]
    requires { RanksIn ranks.now count }
    ensures { (names order : List Field) → length names ≡ count → Ranking ranks.now names order → NumberedAt ranks.now result names order }
{
    let mut numbers = [0u8; 64];
    for j in 0..count {
        numbers[wide(ranks[j] - 1)] = j as u8;
    }
    numbers
}
