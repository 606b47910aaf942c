// The block map: the coordinates that the four blocks along an axis read, and how many of these lie in a column (row).
ghost use Rattle.std.specs.Prelude.{◌*◌, ◌+◌, ◌<◌, ◌≤◌, eqb, get_or, length, ◌≡◌};
ghost use Rattle.definitions.specs.BlockMap.{column_of, digits_of, falls_in};
ghost use Rattle.definitions.specs.Geometry.{even};
ghost use Rattle.definitions.specs.Basics.{four, how_many, pick};
ghost use Rattle.geometry.specs.Step.{Complete, decimals};

use crate::sign::magnitude;
use definitions::EnhancementOffset;

// Document 01's rows as decimal numbers, for k even and for k odd: a line for each |M| / 4, in it an entry for each |N| / 4.
// 0 stands where there is no row.
const ROWS: [[[u32; 5]; 5]; 2] = [
    // N is 0, 4, 8, 12, 16.
    [
        [0, 0, 2345, 3344, 3344], // M = 0
        [0, 3456, 3455, 3445, 3444], // M = -4
        [0123, 0012, 0011, 0011, 0], // M = -8
        [1122, 0112, 0011, 0, 0], // M = -12
        [1122, 1112, 0, 0, 0], // M = -16
    ],
    // N is 0, -4, -8, -12, -16.
    [
        [0, 0, 2345, 3344, 3344], // M = 0
        [0, 1234, 2234, 2334, 3334], // M = 4
        [0123, 1233, 2233, 2233, 0], // M = 8
        [1122, 1223, 2233, 0, 0], // M = 12
        [1122, 1222, 0, 0, 0], // M = 16
    ],
];

// A row of the map at k % 2, |M| / 4 and |N| / 4, as the number that its four digits make.
fn table() -> [[[u32; 5]; 5]; 2]
    ensures { Complete result }
{
    ROWS
}

// The row with this M and N: there is one.
#[tactic(auto, using(crate::proofs::Rows::tops))]
fn row(k: u32, m: EnhancementOffset, n: EnhancementOffset) -> u32
    requires { length (digits_of (even k) m.0 n.0) ≡ 4 }
    ensures { decimals result ≡ digits_of (even k) m.0 n.0 }
{
    let e = (k % 2) as usize;
    let i = (magnitude(m) / 4) as usize;
    let j = (magnitude(n) / 4) as usize;
    let t = table();
    t[e][i][j]
}

// The coordinates 4F + m, for each m of the row with this M and N.
pub fn reads(k: u32, m: EnhancementOffset, n: EnhancementOffset, f: u32) -> [u32; 4]
    requires { (length (digits_of (even k) m.0 n.0) ≡ 4) × (f < 65536) }
    ensures { result ≡ four (λ i. 4 * f + get_or (digits_of (even k) m.0 n.0) i 0) }
{
    let r = row(k, m, n);
    [
        4 * f + r / 1000,
        4 * f + r / 100 % 10,
        4 * f + r / 10 % 10,
        4 * f + r % 10,
    ]
}

// 1 where a coordinate lies in column (row) f, else 0.
#[tactic(auto, unfolding(definitions::specs::Basics::pick))]
fn falls(q: u32, f: u32) -> u32
    ensures { (result ≡ pick (eqb (column_of q) f) 1 0) × (result ≤ 1) }
{
    if q / 4 == f { 1 } else { 0 }
}

// How many of the four blocks that read these coordinates fall in column (row) f (document 02, E5).
#[tactic(auto, unfolding(definitions::specs::Basics::how_many))]
pub fn falls_in(q: [u32; 4], f: u32) -> u32
    ensures { (result ≡ falls_in q f) × (result ≤ 4) }
{
    falls(q[0], f) + falls(q[1], f) + falls(q[2], f) + falls(q[3], f)
}
