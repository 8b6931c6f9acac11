// Its table.
ghost use Rattle.std.specs.Prelude.{◌≡◌};
ghost use Rattle.reader.specs.Places.{machine_at};
ghost use Rattle.walker.specs.Machines.{machine_in};

use crate::unit::GoldenUnit;
use rules::GoldenState;
use walker::Table;

impl<'a> GoldenUnit<'a> {
    pub fn table(&self) -> Table<'a, GoldenState>
        ensures { (result.inputs ≡ self.now.shape.inputs) × (result.states ≡ self.now.shape.states) × (machine_in result ≡ machine_at self.now.bytes.now self.now.shape.table self.now.shape.inputs self.now.shape.states) }
    {
        let shape = self.shape;
        Table::standing(self.bytes, shape.table, shape.inputs, shape.states)
    }
}
