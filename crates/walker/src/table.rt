// A machine's table where it stands in the bytes of a file, and the sorts of its states.
ghost use Rattle.std.specs.Prelude.{◌≡◌, ℕ};
ghost use Rattle.reader.specs.Places.{TableAt};

use rules::{GoldenState, UnitState};

// A sort of states: the golden's or the unit's.
pub trait State: Copy {
    ghost at: { Self → ℕ };

    fn numbered(number: u8) -> Self
        ensures { at result ≡ number };

    fn number(self) -> u8
        ensures { result ≡ at self };
}

impl State for GoldenState {
    ghost at = { λ state. state.0 };

    fn numbered(number: u8) -> GoldenState {
        GoldenState::numbered(number)
    }

    fn number(self) -> u8 {
        GoldenState::number(self)
    }
}

impl State for UnitState {
    ghost at = { λ state. state.0 };

    fn numbered(number: u8) -> UnitState {
        UnitState::numbered(number)
    }

    fn number(self) -> u8 {
        UnitState::number(self)
    }
}

// The table of a machine whose states are of the sort S, from its first entry on. `sort` is some state of that sort: it gives the
// table its sort, and nothing is read of it.
#[derive(Drop)]
pub struct Table<'a, S> {
    pub bytes: &'a [u8],
    pub place: usize,
    pub inputs: u8,
    pub states: u8,
    pub sort: S,
    ghost stands: { TableAt bytes.now place inputs states },
}
