// The check of a dossier (document 01, refusals 1 to 11).
ghost use Rattle.std.specs.Prelude.{◌≡◌};
ghost use Rattle.rules.specs.Operations.{check};
ghost use Rattle.rules.specs.Promises.{CheckPromise};
ghost use Rattle.reader.specs.Shapes.{dossier_read};

use checker_enough::find_lacking;
use reader::DossierShape;
use rules::{Checked, Refusal};
use soundness::read_sound;

// The shape of an accepted dossier, or the refusal.
pub fn accept(dossier: &[u8]) -> Result<DossierShape, Refusal>
    ensures { result ≡ dossier_read (check dossier.now) }
{
    let x = read_sound(dossier)?;
    find_lacking(dossier, x)?;
    Ok(x)
}

pub fn check(dossier: &[u8]) -> Checked
    ensures { CheckPromise dossier.now result }
{
    match accept(dossier) {
        Ok(_) => Checked::Accepted,
        Err(r) => Checked::Refused(r),
    }
}
