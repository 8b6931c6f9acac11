// The entries of a table.
ghost use Rattle.std.specs.Prelude.{◌≡◌, ◌+◌, ◌*◌, ◌≤◌, ◌<◌, length};
ghost use Rattle.reader.specs.Places.{output_width, entry_width, output_at, machine_at, TableAt};
ghost use Rattle.walker.specs.Machines.{machine_in};

use crate::table::{State, Table};
use numbers::wide;
use rules::{Input, Output};

// The bytes of an output and of a table entry.
pub const OUTPUT_WIDTH: usize = 1;

const ENTRY_WIDTH: usize = 1 + OUTPUT_WIDTH;

// The output that stands at a place.
pub fn output_at(bytes: &[u8], place: usize) -> Output
    requires { place + output_width ≤ length bytes.now }
    ensures { result.0 ≡ output_at bytes.now place }
{
    Output::numbered(bytes[place])
}

fn product(a: u8, b: u8) -> usize
    ensures { (result ≡ a * b) × (result ≤ 65025) }
{
    wide(a) * wide(b)
}

impl<'a, S: State> Table<'a, S> {
    pub fn standing(bytes: &'a [u8], place: usize, inputs: u8, states: u8) -> Table<'a, S>
        requires { TableAt bytes.now place inputs states }
        ensures { (result.bytes.now ≡ bytes.now) × (result.place ≡ place) × (result.inputs ≡ inputs) × (result.states ≡ states) × (machine_in result ≡ machine_at bytes.now place inputs states) }
    {
        Table {
            bytes,
            place,
            inputs,
            states,
            sort: S::numbered(0),
        }
    }

    // The place of the entry of a state and an input.
    fn entry(&self, state: S, input: Input) -> usize
        requires { (S.at state < self.now.states) × (input.0 < self.now.inputs) }
        ensures { (result ≡ self.now.place + entry_width * (S.at state * self.now.inputs + input.0)) × (S.at state * self.now.inputs + input.0 < self.now.states * self.now.inputs) }
    {
        self.place + ENTRY_WIDTH * (product(state.number(), self.inputs) + wide(input.number()))
    }

    pub fn next(&self, state: S, input: Input) -> S
        requires { (S.at state < self.now.states) × (input.0 < self.now.inputs) }
        ensures { (S.at result ≡ (machine_in self.now).next (S.at state) input.0) × (S.at result < self.now.states) }
    {
        S::numbered(self.bytes[self.entry(state, input)])
    }

    pub fn output(&self, state: S, input: Input) -> Output
        requires { (S.at state < self.now.states) × (input.0 < self.now.inputs) }
        ensures { result.0 ≡ (machine_in self.now).output (S.at state) input.0 }
    {
        output_at(self.bytes, self.entry(state, input) + 1)
    }
}
