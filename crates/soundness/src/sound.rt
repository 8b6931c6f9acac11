// What the refusals 7 to 10 ask of a dossier that is well formed.
ghost use Rattle.std.specs.Prelude.{◌≡◌};
ghost use Rattle.reader.specs.Shapes.{dossier_read};
ghost use Rattle.soundness.specs.Lent.{Lent, sound_of, sound_dossier, finding_of};

use reader::{DossierShape, read_dossier};
use rules::{File, Refusal};
use soundness_apart::unseparated;
use soundness_reach::{has_empty_word, unreached};
use walker::Table;

// The first of 7 to 10 that holds.
fn find_unsound(bytes: &[u8], x: DossierShape) -> Result<(), Refusal>
    requires { Lent bytes.now x }
    ensures { result ≡ finding_of (sound_of bytes.now) }
{
    if !has_empty_word(bytes, x.cover, x.inputs, x.covers) {
        return Err(Refusal::NoEmptyWord);
    }
    let golden = Table::standing(bytes, x.table, x.inputs, x.states);
    if let Some(q) = unreached(&golden, x.cover, x.covers) {
        return Err(Refusal::Unreached(File::Dossier, q));
    }
    if x.separators == 0 {
        return Err(Refusal::NoSeparator);
    }
    match unseparated(bytes, x) {
        Some((p, q)) => Err(Refusal::NotSeparated(p, q)),
        None => Ok(()),
    }
}

// A dossier that none of 1 to 10 refuses.
pub fn read_sound(dossier: &[u8]) -> Result<DossierShape, Refusal>
    ensures { result ≡ dossier_read (sound_dossier dossier.now) }
{
    let x = read_dossier(dossier)?;
    find_unsound(dossier, x)?;
    Ok(x)
}
