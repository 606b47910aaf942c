// The macroblocks of the base and of the picture: how many there are, and their addresses in raster order.
ghost use Rattle.std.specs.Prelude.{◌*◌, ◌+◌, ◌<◌, ◌≤◌, ◌≡◌};
ghost use Rattle.definitions.specs.Geometry.{base_size, full_size, macroblocks};
ghost use Rattle.definitions.specs.Raster.{base_count, column_at, full_count, row_at};

use crate::Geometry;
use definitions::Axes;

// The columns of the base, and of the picture, of any two axes.
pub fn base_width(g: Axes) -> usize
    ensures { result ≡ macroblocks (base_size g.horizontal) }
{
    (g.horizontal.base.0 / 16) as usize
}

pub fn full_width(g: Axes) -> usize
    ensures { result ≡ macroblocks (full_size g.horizontal) }
{
    (g.horizontal.full.0 / 16) as usize
}

impl Geometry {
    // Those of the geometry.
    pub fn base_width(self) -> usize
        ensures { result ≡ macroblocks (base_size self.axes.horizontal) }
    {
        base_width(self.axes)
    }

    pub fn full_width(self) -> usize
        ensures { result ≡ macroblocks (full_size self.axes.horizontal) }
    {
        full_width(self.axes)
    }

    // The macroblocks of the base, and of the picture.
    pub fn base_count(self) -> usize
        ensures { (result ≡ base_count self.axes) × (result ≤ 65536) }
    {
        self.base_width() * (self.axes.vertical.base.0 / 16) as usize
    }

    pub fn full_count(self) -> usize
        ensures { (result ≡ full_count self.axes) × (result ≤ 65536) }
    {
        self.full_width() * (self.axes.vertical.full.0 / 16) as usize
    }

    // The column and row of an address in the picture.
    pub fn column_at(self, address: usize) -> u32
        requires { address < 65536 }
        ensures { (result ≡ column_at self.axes address) × (result < 256) }
    {
        (address % self.full_width()) as u32
    }

    pub fn row_at(self, address: usize) -> u32
        requires { address < full_count self.axes }
        ensures { (result ≡ row_at self.axes address) × (result < 256) }
    {
        (address / self.full_width()) as u32
    }
}

// The address at a column and row, in a picture of so many columns.
pub fn address_of(width: usize, column: usize, row: usize) -> usize
    requires { (width ≤ 256) × (column < 4294967296) × (row < 4294967296) }
    ensures { result ≡ row * width + column }
{
    row * width + column
}
