// Writing a motion record of one motion. (What is written is a slice of just its length: a part of a picture's words, of which an array would be made by a test at each call.)
ghost use Rattle.std.specs.Prelude.{◌≡◌, map, length};
ghost use Rattle.definitions.specs.Answer.{without_motion};
ghost use Rattle.definitions.specs.Record.{all_one, laid_out, record_words};
ghost use Rattle.motion.specs.ByValue.{InWords, motion_in};

use crate::layout::{DETAIL, NO_MOTION, REFERENCES, SUB_TYPES, TYPE, VECTORS};
use motion::BlockMotion;
use word::{Word, put};

// The same motion in all blocks, and no sub-types.
pub fn write_one<W: Word>(out: &mut [W], kind: u8, m: BlockMotion, detail: i16)
    requires { (length out.old ≡ record_words) × InWords W.BITS m }
    ensures { map W.value out.new ≡ laid_out (all_one kind (motion_in m) detail) }
{
    put(out, TYPE, kind as i32);
    for w in SUB_TYPES..REFERENCES {
        put(out, w, 0);
    }
    for q in 0..4usize {
        let w = REFERENCES + 2 * q;
        put(out, w, m.r0);
        put(out, w + 1, m.r1);
    }
    for b in 0..16usize {
        let w = VECTORS + 4 * b;
        put(out, w, m.x0);
        put(out, w + 1, m.y0);
        put(out, w + 2, m.x1);
        put(out, w + 3, m.y1);
    }
    put(out, DETAIL, detail as i32);
}

// A record without motion, of type 0 (intra) or 5 (outside).
pub fn write_unused<W: Word>(out: &mut [W], kind: u8, detail: i16)
    requires { length out.old ≡ record_words }
    ensures { map W.value out.new ≡ without_motion kind detail }
{
    write_one(out, kind, NO_MOTION, detail);
}
