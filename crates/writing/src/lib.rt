// Writing what was made of a macroblock into a record: step 4 of "Inheriting", as document 02's E3 has it, while the vectors are written, and step 5, the split.
#![tactic(auto)]

ghost use Rattle.std.specs.Prelude.{◌<◌, pos, map, length, ◌++◌, ◌≡◌};
ghost use Rattle.definitions.specs.Answer.{divided_by};
ghost use Rattle.definitions.specs.Blocks.{raster_of};
ghost use Rattle.definitions.specs.Inheriting.{chosen, motion_at};
ghost use Rattle.definitions.specs.Record.{laid_out, record_words, references_of, vectors_of};
ghost use Rattle.motion.specs.ByValue.{AllWritable, InWords, QuadrantWritable, Referring, Writable, motion_in, motions_in, quadrants_in};
ghost use Rattle.motion.specs.Scales.{AcceptedScales, all_scaled, motion_scaled};
ghost use Rattle.split.specs.Types.{type_words};
ghost use Rattle.writing.specs.Words.{quadrant_put, quadrant_scaled};

use motion::{BlockMotion, Scales};
use records::layout::{DETAIL, REFERENCES, TYPE, VECTORS};
use split::{Types, types_of};
use word::{Word, put};

// ---- Step 4: each vector word is scaled as its width does it (`Word::scaled`).
// A block's motion, scaled.
pub fn scaled<W: Word>(s: Scales, m: BlockMotion) -> BlockMotion
    requires { AcceptedScales s × Writable W.LIMIT m }
    ensures is { motion_in result ≡ motion_scaled s (motion_in m) }
    ensures fits { InWords W.BITS result }
{
    BlockMotion {
        r0: m.r0,
        r1: m.r1,
        x0: W::scaled(s.horizontal, m.x0).get(),
        y0: W::scaled(s.vertical, m.y0).get(),
        x1: W::scaled(s.horizontal, m.x1).get(),
        y1: W::scaled(s.vertical, m.y1).get(),
    }
}

// ---- A quadrant
// Its references, which are those of its first block.
fn put_references<W: Word>(out: &mut [W], m: BlockMotion)
    requires { (length out.old ≡ 2) × Referring m }
    ensures { map W.value out.new ≡ references_of (motion_in m) }
{
    put(out, 0, m.r0);
    put(out, 1, m.r1);
}

// A row of two blocks: their vectors, scaled.
fn put_pair<W: Word>(out: &mut [W], s: Scales, a: BlockMotion, b: BlockMotion)
    requires { (length out.old ≡ 8) × AcceptedScales s × Writable W.LIMIT a × Writable W.LIMIT b }
    ensures { map W.value out.new ≡ vectors_of (motion_scaled s (motion_in a)) ++ vectors_of (motion_scaled s (motion_in b)) }
{
    let h = s.horizontal;
    let v = s.vertical;
    out[0] = W::scaled(h, a.x0);
    out[1] = W::scaled(v, a.y0);
    out[2] = W::scaled(h, a.x1);
    out[3] = W::scaled(v, a.y1);
    out[4] = W::scaled(h, b.x0);
    out[5] = W::scaled(v, b.y0);
    out[6] = W::scaled(h, b.x1);
    out[7] = W::scaled(v, b.y1);
}

// The first block of each quadrant.
const FIRST_BLOCK: [usize; 4] = [0, 2, 8, 10];

// Quadrant q, whose first block is i (the caller looks it up, where q is a constant): its references, and its two rows of blocks.
fn put_quadrant<W: Word>(out: &mut [W], s: Scales, q: usize, i: usize, m: [BlockMotion; 4])
    requires { (length out.old ≡ record_words) × (q < 4) × (i ≡ raster_of q 0) × AcceptedScales s × QuadrantWritable W.LIMIT m }
    ensures { map W.value out.new ≡ quadrant_put q (quadrant_scaled s (motions_in m)) (map W.value out.old) }
{
    let r = REFERENCES + 2 * q;
    let k = VECTORS + 4 * i;
    let below = VECTORS + 4 * (i + 4);
    put_references(&mut out[r..r + 2], m[0]);
    put_pair(&mut out[k..k + 8], s, m[0], m[1]);
    put_pair(&mut out[below..below + 8], s, m[2], m[3]);
}

// ---- The record
// Words 0 to 4: the type and the sub-types.
fn put_types<W: Word>(out: &mut [W], t: Types)
    requires { length out.old ≡ 5 }
    ensures { map W.value out.new ≡ type_words t }
{
    put(out, 0, t.kind as i32);
    put(out, 1, t.a as i32);
    put(out, 2, t.b as i32);
    put(out, 3, t.c as i32);
    put(out, 4, t.d as i32);
}

// The record of four quadrants of four blocks, as steps 1 to 3 have left them: scaled, and with the fewest pieces.
// The split is chosen before step 4 (`made-of` of proofs/Assembled): scaling keeps different motions different (`motion-apart` of proofs/Apart).
pub fn write_made<W: Word>(out: &mut [W], s: Scales, m: [[BlockMotion; 4]; 4], detail: u8)
    requires { (length out.old ≡ record_words) × AcceptedScales s × AllWritable W.LIMIT m }
    ensures { map W.value out.new ≡ laid_out (divided_by (chosen (all_scaled s (quadrants_in m))) (motion_at (all_scaled s (quadrants_in m))) (pos detail)) }
{
    let t = types_of(m);
    put_quadrant(out, s, 0, FIRST_BLOCK[0], m[0]);
    put_quadrant(out, s, 1, FIRST_BLOCK[1], m[1]);
    put_quadrant(out, s, 2, FIRST_BLOCK[2], m[2]);
    put_quadrant(out, s, 3, FIRST_BLOCK[3], m[3]);
    put_types(&mut out[TYPE..REFERENCES], t);
    put(out, DETAIL, detail as i32);
}
