// The intra set: its count, which of its blocks lie in a quadrant, and step 3 of "Inheriting", on four quadrants of four motions.
#![tactic(auto)]

ghost use Rattle.std.specs.Prelude.{◌<◌, ◌≡◌};
ghost use Rattle.definitions.specs.Basics.{some_of};
ghost use Rattle.definitions.specs.Inheriting.{clear_of, copied, copied_from, live_of, marked, mostly_intra};
ghost use Rattle.motion.specs.ByValue.{quadrants_in};

use motion::BlockMotion;

// ---- The intra set: bit i stands for block i in raster order.
// From this count on the answer is intra.
const MOSTLY: u32 = 9;

// Nine or more blocks read intra macroblocks: the answer is intra.
pub fn mostly_intra(set: u16) -> bool
    ensures { result ≡ mostly_intra set }
{
    set.count_ones() >= MOSTLY
}

// Block i is in the set.
fn is_marked(set: u16, i: u32) -> bool
    requires { i < 16 }
    ensures { result ≡ marked set i }
{
    (set >> i) & 1 == 1
}

// The first block of each quadrant. (`writing` has the same numbers as indices: four numbers fetched from another crate are no plainer.)
const FIRST_BLOCK: [u32; 4] = [0, 2, 8, 10];

// The blocks of quadrant q that read no intra macroblock.
pub fn clear_of(set: u16, q: usize) -> [bool; 4]
    requires { q < 4 }
    ensures { result ≡ clear_of set q }
{
    let i = FIRST_BLOCK[q];
    [
        !is_marked(set, i),
        !is_marked(set, i + 1),
        !is_marked(set, i + 4),
        !is_marked(set, i + 5),
    ]
}

// ---- Step 3: a quadrant all intra copies another. Live are those that are not all intra.
fn some_of(b: [bool; 4]) -> bool
    ensures { result ≡ some_of b }
{
    b[0] | b[1] | b[2] | b[3]
}

// The quadrants that are not all intra.
fn live_of(set: u16) -> [bool; 4]
    ensures { result ≡ live_of set }
{
    [
        some_of(clear_of(set, 0)),
        some_of(clear_of(set, 1)),
        some_of(clear_of(set, 2)),
        some_of(clear_of(set, 3)),
    ]
}

// The quadrant that quadrant q copies: itself if it is live.
fn copied_from(live: [bool; 4], q: usize) -> usize
    requires { q < 4 }
    ensures { (result ≡ copied_from live q) × (result < 4) }
{
    let h = quadrant::HORIZONTAL[q];
    let v = quadrant::VERTICAL[q];
    if live[q] {
        return q;
    }
    if live[h] {
        return h;
    }
    v
}

// Each quadrant as it is copied. Where all are live nothing is (`copied_all`).
pub fn copy(set: u16, m: [[BlockMotion; 4]; 4]) -> [[BlockMotion; 4]; 4]
    ensures { quadrants_in result ≡ copied (live_of set) (quadrants_in m) }
{
    let live = live_of(set);
    if live[0] & live[1] & live[2] & live[3] {
        return m;
    }
    let a = m[copied_from(live, 0)];
    let b = m[copied_from(live, 1)];
    let c = m[copied_from(live, 2)];
    let d = m[copied_from(live, 3)];
    [a, b, c, d]
}
