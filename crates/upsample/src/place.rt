// A macroblock of the picture.
ghost use Rattle.std.specs.Prelude.{◌<◌};

use geometry::Geometry;

// A macroblock of the picture, with its geometry.
#[derive(Clone, Copy)]
pub struct Place {
    pub geometry: Geometry,
    pub column: u32,
    pub row: u32,
    ghost within: { (column < 256) × (row < 256) },
}
