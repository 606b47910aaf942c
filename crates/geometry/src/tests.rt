// Refusals 5, 6 and 7 of the calls on records: each is tested here and nowhere else.
ghost use Rattle.std.specs.Prelude.{◌*◌, ◌≤◌, eqb, ◌&&◌, ◌≡◌};
ghost use Rattle.definitions.specs.Geometry.{full_size};
ghost use Rattle.definitions.specs.Raster.{base_count};
ghost use Rattle.definitions.specs.Record.{record_words};
ghost use Rattle.definitions.specs.Refusals.{within_axis};

use crate::Geometry;
use definitions::{EnhancementSample, RECORD_WORDS};

impl Geometry {
    // 5: a base of so many words is that of the geometry.
    pub fn base_right(self, words: usize) -> bool
        ensures { result ≡ eqb words (record_words * base_count self.axes) }
    {
        words == RECORD_WORDS * self.base_count()
    }

    // 7: column and row are the picture's.
    pub fn position_right(self, column: i32, row: i32) -> bool
        ensures { result ≡ (within_axis (full_size self.axes.horizontal) column && within_axis (full_size self.axes.vertical) row) }
    {
        let width = self.axes.horizontal.full;
        let height = self.axes.vertical.full;
        is_within(width, column) & is_within(height, row)
    }
}

// 6: so many words to write are those of so many records.
pub fn output_right(records: usize, words: usize) -> bool
    requires { records ≤ 65536 }
    ensures { result ≡ eqb words (record_words * records) }
{
    words == RECORD_WORDS * records
}

// 7: column or row x is one of the picture's.
fn is_within(size: EnhancementSample, x: i32) -> bool
    requires { size.0 ≤ 4096 }
    ensures { result ≡ within_axis size.0 x }
{
    (0 <= x) & (x < (size.0 / 16) as i32)
}
