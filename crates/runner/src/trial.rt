// The run of a unit over the tests of an accepted dossier.
ghost use Rattle.std.specs.Prelude.{◌≡◌};
ghost use Rattle.rules.specs.Operations.{run_answer};
ghost use Rattle.rules.specs.Promises.{RunPromise};
ghost use Rattle.checker.specs.Accepted.{AcceptedAt};

use checker::accept;
use reader::{DossierShape, bound_of, read_unit};
use rules::{Ran, Refusal};
use runner_trials::try_tests;

// A unit against an accepted dossier: its 1 to 6, then 15 and 16, then the tests.
pub fn try_unit(dossier: &[u8], x: DossierShape, unit: &[u8]) -> Ran
    requires { AcceptedAt dossier.now x }
    ensures { result ≡ run_answer dossier.now unit.now }
{
    match read_unit(unit) {
        Ok(y) => {
            let inputs = x.inputs;
            if inputs != y.inputs {
                return Ran::Refused(Refusal::OtherInputs);
            }
            if bound_of(x.states, x.bound_byte) < y.states {
                return Ran::Refused(Refusal::TooManyStates);
            }
            try_tests(dossier, x, unit, y)
        }
        Err(r) => Ran::Refused(r),
    }
}

// The dossier is checked to its end before the first byte of the unit is read.
pub fn run(dossier: &[u8], unit: &[u8]) -> Ran
    ensures { RunPromise dossier.now unit.now result }
{
    match accept(dossier) {
        Ok(x) => try_unit(dossier, x, unit),
        Err(r) => Ran::Refused(r),
    }
}
