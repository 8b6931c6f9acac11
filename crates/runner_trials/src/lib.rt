// The tests of a dossier tried on a unit (document 01, "Run").
#![tactic(auto)]

ghost use Rattle.std.specs.Prelude.{◌≡◌};
ghost use Rattle.rules.specs.Operations.{run_answer};
ghost use Rattle.runner_trials.specs.Trials.{TrialAt};

use reader::{DossierShape, UnitShape};
use rules::Ran;
use walker::{Table, unit_difference, word_end};

// The tests in dossier order, up to the first whose answer differs.
pub fn try_tests(dossier: &[u8], x: DossierShape, unit: &[u8], y: UnitShape) -> Ran
    requires { TrialAt dossier.now x unit.now y }
    ensures { result ≡ run_answer dossier.now unit.now }
{
    let golden = Table::standing(dossier, x.table, x.inputs, x.states);
    let tried = Table::standing(unit, y.table, y.inputs, y.states);
    let mut word = x.tests;
    for place in 0..x.count {
        if let Some(step) = unit_difference(&golden, &tried, dossier, word) {
            return Ran::Fails(place, step);
        }
        word = word_end(dossier, word);
    }
    Ran::Passes(x.count)
}
