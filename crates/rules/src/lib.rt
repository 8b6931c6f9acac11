// The kinds of number, refusal and answer of documents 01 and 02. What each one means stands in specs/.
#![tactic(auto)]

ghost use Rattle.std.specs.Prelude.{◌≡◌, ◌<◌};
ghost use Rattle.rules.specs.Answers.{file_number, fault_number};

// The four sorts of number. Each is its own type and its field is private, so that no text outside this crate can use one
// for another without saying so: `numbered` makes one where a file is read, `number` gives its number where an answer is
// packed or printed or an entry looked up.
#[derive(Clone, Copy)]
pub struct GoldenState(u8);

#[derive(Clone, Copy)]
pub struct UnitState(u8);

#[derive(Clone, Copy)]
pub struct Input(u8);

#[derive(Clone, Copy, PartialEq, Eq)]
pub struct Output(u8);

impl GoldenState {
    pub fn numbered(number: u8) -> GoldenState
        ensures { result.0 ≡ number }
    {
        GoldenState(number)
    }

    pub fn number(self) -> u8
        ensures { result ≡ self.0 }
    {
        self.0
    }
}

impl UnitState {
    pub fn numbered(number: u8) -> UnitState
        ensures { result.0 ≡ number }
    {
        UnitState(number)
    }

    pub fn number(self) -> u8
        ensures { result ≡ self.0 }
    {
        self.0
    }
}

impl Input {
    pub fn numbered(number: u8) -> Input
        ensures { result.0 ≡ number }
    {
        Input(number)
    }

    pub fn number(self) -> u8
        ensures { result ≡ self.0 }
    {
        self.0
    }
}

impl Output {
    pub fn numbered(number: u8) -> Output
        ensures { result.0 ≡ number }
    {
        Output(number)
    }

    pub fn number(self) -> u8
        ensures { result ≡ self.0 }
    {
        self.0
    }
}

// Sizes.
pub const MOST_INPUTS: u8 = 16;

pub const MOST_STATES: u8 = 64;

pub const MOST_ADDED_STATES: u8 = 4;

pub const MOST_SET_WORD: u8 = 97;

pub const MOST_TEST_WORD: u8 = 200;

pub const MOST_DOSSIER_BYTES: usize = 65535;

pub const MOST_UNIT_BYTES: usize = 65535;

pub const MOST_SHEET_BYTES: usize = 131070;

// The file that a refusal concerns, or the number that was passed.
#[derive(Clone, Copy)]
pub enum File {
    Dossier,
    Unit,
    Sheet,
    Output,
    Number,
    Text,
}

impl File {
    pub fn number(self) -> u8
        ensures { (result ≡ file_number self) × (result < 8) }
    {
        match self {
            File::Dossier => 1,
            File::Unit => 2,
            File::Sheet => 3,
            File::Output => 4,
            File::Number => 6,
            File::Text => 5,
        }
    }
}

// The refusals 1 to 6: what keeps a file from being well formed.
#[derive(Clone, Copy)]
pub enum Fault {
    TooLong,
    CutShort,
    BadNumbers,
    BadTable,
    BadWord,
    Trailing,
}

impl Fault {
    pub fn number(self) -> u8
        ensures { (result ≡ fault_number self) × (result < 8) }
    {
        match self {
            Fault::TooLong => 1,
            Fault::CutShort => 2,
            Fault::BadNumbers => 3,
            Fault::BadTable => 4,
            Fault::BadWord => 5,
            Fault::Trailing => 6,
        }
    }
}

// A middle has at most five inputs: `len` of them, from `a` on. Those beyond are 0.
#[derive(Clone, Copy)]
pub struct Middle {
    pub len: u8,
    pub a: Input,
    pub b: Input,
    pub c: Input,
    pub d: Input,
    pub e: Input,
}

// The refusals 1 to 21. Those of 1 to 6 are one case: the fault, the file and the byte place. UNREACHED concerns the file that is
// taken as golden: a dossier, or the unit of find.
#[derive(Clone, Copy)]
pub enum Refusal {
    Malformed(Fault, File, usize),
    NoEmptyWord,
    Unreached(File, GoldenState),
    NoSeparator,
    NotSeparated(GoldenState, GoldenState),
    Missing(usize, Middle, usize),
    Repeated(usize),
    Foreign(usize),
    Absent(usize),
    OtherInputs,
    TooManyStates,
    NoRoom(usize),
    NotReduced(GoldenState, GoldenState),
    BadLine(usize),
    Contradiction(usize),
    Incomplete(UnitState, Input),
}

#[derive(Clone, Copy)]
pub enum Checked {
    Accepted,
    Refused(Refusal),
}

// The length of what was written.
#[derive(Clone, Copy)]
pub enum Built {
    Written(usize),
    Refused(Refusal),
}

// The count of tests; or the place of the test that fails and its first differing step.
#[derive(Clone, Copy)]
pub enum Ran {
    Passes(usize),
    Fails(usize, usize),
    Refused(Refusal),
}

// The length of the telling word.
#[derive(Clone, Copy)]
pub enum Compared {
    Equal,
    Differs(usize),
    Refused(Refusal),
}

// The place of the test that deviates and its first differing step.
#[derive(Clone, Copy)]
pub enum Judged {
    Agrees,
    Deviates(usize, usize),
    Refused(Refusal),
}

// The count of tests and the sum of their lengths.
#[derive(Clone, Copy)]
pub enum Costed {
    Cost(usize, usize),
    Refused(Refusal),
}

// The length of what was written.
#[derive(Clone, Copy)]
pub enum Found {
    Written(usize),
    Refused(Refusal),
}

// The length of what was written.
#[derive(Clone, Copy)]
pub enum Imported {
    Written(usize),
    Refused(Refusal),
}
