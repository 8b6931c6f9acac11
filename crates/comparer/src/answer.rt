// The comparison (document 01, "Compare", and its refusals: the dossier's 1 to 6, the unit's 1 to 6, 15, 17).
ghost use Rattle.rules.specs.Promises.{ComparePromise};
ghost use Rattle.comparer_pairs.specs.Sides.{golden_at, unit_at};
ghost use Rattle.comparer.specs.Found.{AnswersFirst, Stand};

use crate::spelling::write_telling;
use comparer_pairs::{Sides, no_entries};
use comparer_search::search;
use reader::{DossierShape, UnitShape, read_dossier, read_unit};
use rules::{Compared, Refusal};

// The answer for two machines over the same inputs. EQUAL writes nothing.
fn compare_sides(sides: &Sides<'_>, out: &mut [u8]) -> Compared
    ensures { AnswersFirst sides.now.inputs (golden_at sides.now) (unit_at sides.now) out.old result out.new }
{
    let mut queue = no_entries();
    match search(sides, &mut queue) {
        None => Compared::Equal,
        Some((place, input)) => write_telling(&queue, place, input, out),
    }
}

// The answer for a dossier and a unit that read well.
fn compare_read(
    dossier: &[u8],
    unit: &[u8],
    x: DossierShape,
    y: UnitShape,
    out: &mut [u8],
) -> Compared
    requires { Stand dossier.now unit.now x y }
    ensures { ComparePromise dossier.now unit.now out.old result out.new }
{
    let inputs = x.inputs;
    if inputs != y.inputs {
        return Compared::Refused(Refusal::OtherInputs);
    }
    let sides = Sides {
        dossier,
        unit,
        inputs,
        table: x.table,
        states: x.states,
        utable: y.table,
        units: y.states,
    };
    compare_sides(&sides, out)
}

pub fn compare(dossier: &[u8], unit: &[u8], out: &mut [u8]) -> Compared
    ensures { ComparePromise dossier.now unit.now out.old result out.new }
{
    match read_dossier(dossier) {
        Ok(x) => match read_unit(unit) {
            Ok(y) => compare_read(dossier, unit, x, y, out),
            Err(r) => Compared::Refused(r),
        },
        Err(r) => Compared::Refused(r),
    }
}
