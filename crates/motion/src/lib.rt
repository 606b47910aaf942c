// A block's motion by value, and the scales of step 4 of "Inheriting" as document 02's E3 has it.
#![tactic(auto)]

ghost use Rattle.definitions.specs.Accepted.{AcceptedAxes, AcceptedAxis};
ghost use Rattle.definitions.specs.Geometry.{base_size, scaled_size};
ghost use Rattle.definitions.specs.Inheriting.{scale_of};
ghost use Rattle.motion.specs.Scales.{scale_in, scales_of};
ghost use Rattle.std.specs.Prelude.{◌≡◌};

use definitions::{Axes, Axis};

// The references of both lists, -1 unused, and the vectors side by side, so that they are compared and scaled at once. In 32 bits, so that records of any width share it.
#[derive(Clone, Copy, PartialEq, Eq)]
pub struct BlockMotion {
    pub r0: i32,
    pub r1: i32,
    pub x0: i32,
    pub y0: i32,
    pub x1: i32,
    pub y1: i32,
}

// The scale of an axis in two parts of sixteen bits, 65,536 · whole + part, so that several words are multiplied at once.
#[derive(Clone, Copy)]
pub struct Scale {
    pub whole: i16,
    pub part: i16,
}

// Both axes': made once a picture, or once a call, and handed down. (What is asked of them, AcceptedScales, was tried as a ghost field: it holds a number, and such a field takes a
// proposition alone.)
#[derive(Clone, Copy)]
pub struct Scales {
    pub horizontal: Scale,
    pub vertical: Scale,
}

// (S · 65,536 + B/2) / B
fn scale_of(a: Axis) -> Scale
    requires { AcceptedAxis a }
    ensures { result ≡ scale_in (scale_of (base_size a) (scaled_size a)) }
{
    let scale = (a.scaled.0 * 65536 + a.base.0 / 2) / a.base.0;
    let whole = (scale + 32768) / 65536;
    Scale {
        whole: whole as i16,
        part: (scale as i32 - 65536 * whole as i32) as i16,
    }
}

// The scales of a geometry.
pub fn scales_of(g: Axes) -> Scales
    requires { AcceptedAxes g }
    ensures { result ≡ scales_of g }
{
    let horizontal = scale_of(g.horizontal);
    let vertical = scale_of(g.vertical);
    Scales {
        horizontal,
        vertical,
    }
}
