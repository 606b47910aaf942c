// The geometry of the two layers: numbers that refusals 1 to 4 accept, its counts and addresses, refusals 5 to 7, and what an axis gives for one macroblock.
#![tactic(auto)]

pub mod map; // map.rt: the block map
pub mod raster; // raster.rt: macroblocks and their addresses
pub mod sign; // sign.rt: the size and the sign of a displacement
pub mod step; // step.rt: an axis, for one macroblock, and the class of both
pub mod tests; // tests.rt: refusals 5, 6 and 7

ghost use Rattle.definitions.specs.Geometry.{axes_of, axis_of};
ghost use Rattle.definitions.specs.Refusals.{geometry_verdict, offset_right, scaled_right, size_right};
ghost use Rattle.definitions.specs.Basics.{between as in_range};
ghost use Rattle.definitions.specs.Accepted.{AcceptedAxes, AcceptedAxis};
ghost use Rattle.definitions.specs.Replies.{Accepted};
ghost use Rattle.geometry.specs.Checked.{NoneNegative, checked_by};
ghost use Rattle.geometry.specs.Step.{AtSample};
ghost use Rattle.std.specs.Prelude.{◌<◌, ◌&&◌, true, ◌≡◌, Err, IfErr, IfOk, Ok};

use common::refusals;
use common::refusals::unless;
use definitions::{
    Axes, Axis, AxisNumbers, BaseSample, EnhancementOffset, EnhancementSample, Numbers, Refusal,
    Verdict,
};
pub use step::{axis_step, class_of, is_inside};

// A geometry that refusals 1 to 4 accept.
#[derive(Clone, Copy)]
pub struct Geometry {
    pub axes: Axes,
    ghost accepted: { AcceptedAxes axes },
}

impl Geometry {
    // Base and enhancement sizes are multiples of a macroblock's.
    pub const SIZE_STEP: i32 = 16;

    pub const SIZE_MIN: i32 = 16;

    pub const SIZE_MAX: i32 = 4096;

    pub const OFFSET_MIN: i32 = -8192;

    pub const OFFSET_MAX: i32 = 8190;

    // The geometry of the numbers, or why they are refused.
    pub fn new(n: Numbers) -> Result<Geometry, Refusal>
        ensures accepted { IfOk result (λ g. (geometry_verdict n ≡ Accepted) × (g.axes ≡ axes_of n)) }
        ensures refused { IfErr result (λ r. geometry_verdict n ≡ Err r) }
        ensures checked { IfOk result (λ g. checked_by (geometry_verdict n) n ≡ Ok g.axes) × IfErr result (λ r. checked_by (geometry_verdict n) n ≡ Err r) }
    {
        verdict_on(n)?;
        Ok(Geometry { axes: axes_of(n) })
    }

    // Its two axes, with sizes that are not below 0.
    pub fn axes(self) -> Axes
        ensures { result ≡ self.axes }
    {
        self.axes
    }

    // One of them.
    pub fn horizontal(self) -> CheckedAxis
        ensures { result.axis ≡ self.axes.horizontal }
    {
        CheckedAxis {
            axis: self.axes.horizontal,
        }
    }

    pub fn vertical(self) -> CheckedAxis
        ensures { result.axis ≡ self.axes.vertical }
    {
        CheckedAxis {
            axis: self.axes.vertical,
        }
    }
}

// An axis of such a geometry.
#[derive(Clone, Copy)]
pub struct CheckedAxis {
    pub axis: Axis,
    ghost accepted: { AcceptedAxis axis },
}

impl CheckedAxis {
    // At a macroblock that starts at this sample.
    pub fn at(self, start: EnhancementSample) -> AxisAt
        requires { start.0 < 65536 }
        ensures axis { result.axis ≡ self.axis }
        ensures start { result.start ≡ start }
    {
        AxisAt {
            axis: self.axis,
            start,
        }
    }
}

// Such an axis, and where a macroblock starts on it: far below what 32 bits hold.
#[derive(Clone, Copy)]
pub struct AxisAt {
    pub axis: Axis,
    pub start: EnhancementSample,
    ghost known: { AtSample axis start.0 },
}

// Refusals 1 to 4, by number first and then by axis.
#[tactic(auto, unfolding(definitions::specs::Basics::pick, definitions::specs::Refusals::geometry_tests))]
fn verdict_on(n: Numbers) -> Verdict
    ensures { result ≡ geometry_verdict n }
{
    unless(bases_right(n), refusals::BASE_SIZE)?;
    unless(fulls_right(n), refusals::FULL_SIZE)?;
    unless(scaleds_right(n), refusals::SCALED_SIZE)?;
    unless(offsets_right(n), refusals::OFFSET)
}

// Refusal 1 does not apply. (One function for each refusal, as the paper numbers them.)
fn bases_right(n: Numbers) -> bool
    ensures { result ≡ (size_right n.horizontal.base && size_right n.vertical.base) }
{
    size_right(n.horizontal.base) & size_right(n.vertical.base)
}

// Refusal 2 does not apply.
fn fulls_right(n: Numbers) -> bool
    ensures { result ≡ (size_right n.horizontal.full && size_right n.vertical.full) }
{
    size_right(n.horizontal.full) & size_right(n.vertical.full)
}

// Asked where 1 accepts the bases, so that 2B fits.
fn scaleds_right(n: Numbers) -> bool
    requires { (size_right n.horizontal.base && size_right n.vertical.base) ≡ true }
    ensures { result ≡ (scaled_right n.horizontal.base n.horizontal.scaled && scaled_right n.vertical.base n.vertical.scaled) }
{
    scaled_right(n.horizontal.base, n.horizontal.scaled)
        & scaled_right(n.vertical.base, n.vertical.scaled)
}

// Refusal 4 does not apply.
fn offsets_right(n: Numbers) -> bool
    ensures { result ≡ (offset_right n.horizontal.offset && offset_right n.vertical.offset) }
{
    offset_right(n.horizontal.offset) & offset_right(n.vertical.offset)
}

// Both tests are made: `&` is the definition's and, with no branch.
fn between(low: i32, high: i32, x: i32) -> bool
    ensures { result ≡ in_range low high x }
{
    (low <= x) & (x <= high)
}

// 1 and 2.
fn size_right(x: i32) -> bool
    ensures { result ≡ size_right x }
{
    between(Geometry::SIZE_MIN, Geometry::SIZE_MAX, x) & (x % Geometry::SIZE_STEP == 0)
}

// 3, asked where 1 accepts B.
fn scaled_right(b: i32, s: i32) -> bool
    requires { size_right b ≡ true }
    ensures { result ≡ scaled_right b s }
{
    (s % 2 == 0) & between(b, 2 * b, s)
}

// 4.
fn offset_right(o: i32) -> bool
    ensures { result ≡ offset_right o }
{
    (o % 2 == 0) & between(Geometry::OFFSET_MIN, Geometry::OFFSET_MAX, o)
}

// The axes of accepted numbers. (No From: both ask that none is below 0.)
fn axes_of(n: Numbers) -> Axes
    requires { geometry_verdict n ≡ Accepted }
    ensures { result ≡ axes_of n }
{
    Axes {
        horizontal: axis_of(n.horizontal),
        vertical: axis_of(n.vertical),
    }
}

fn axis_of(n: AxisNumbers) -> Axis
    requires { NoneNegative n }
    ensures { result ≡ axis_of n }
{
    Axis {
        base: BaseSample(n.base as u32),
        scaled: EnhancementSample(n.scaled as u32),
        offset: EnhancementOffset(n.offset),
        full: EnhancementSample(n.full as u32),
    }
}
