// The unit where it stands.
ghost use Rattle.reader.specs.Standing.{UnitAt};

use reader::UnitShape;

#[derive(Drop)]
pub struct GoldenUnit<'a> {
    pub bytes: &'a [u8],
    pub shape: UnitShape,
    ghost stands: { UnitAt bytes.now shape },
}
