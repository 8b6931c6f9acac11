// Which of 8 and 18 comes first.
ghost use Rattle.std.specs.Prelude.{◌≡◌, ℕ};
ghost use Rattle.std.proofs.Math.Option.{Option};
ghost use Rattle.soundness_reach.specs.Reached.{state_found};
ghost use Rattle.soundness_apart.specs.Separating.{pair_found};
ghost use Rattle.soundness.specs.Lent.{finding_of};
ghost use Rattle.finder.specs.Drafts.{reduced};

use rules::{File, GoldenState, Refusal};

// The state that no word leads to, and else the two that no word tells apart.
pub fn first_fault(
    state: Option<GoldenState>,
    pair: Option<(GoldenState, GoldenState)>,
) -> Result<(), Refusal>
    ensures { (q : Option ℕ) (a : Option (ℕ × ℕ)) → state ≡ state_found q → pair ≡ pair_found a → result ≡ finding_of (reduced q a) }
{
    match state {
        Some(q) => Err(Refusal::Unreached(File::Unit, q)),
        None => match pair {
            Some((p, q)) => Err(Refusal::NotReduced(p, q)),
            None => Ok(()),
        },
    }
}
