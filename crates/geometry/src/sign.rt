// The size and the sign of a displacement.
ghost use Rattle.std.specs.Prelude.{◌<◌, nat_abs, ◌≡◌};
ghost use Rattle.definitions.specs.Basics.{signed};

use definitions::EnhancementOffset;

// |d|.
pub fn magnitude(d: EnhancementOffset) -> u32
    ensures { result ≡ nat_abs d.0 }
{
    d.0.unsigned_abs()
}

// sign(d) · n.
pub fn with_sign_of(d: EnhancementOffset, n: u32) -> EnhancementOffset
    requires { n < 65540 }
    ensures { result.0 ≡ signed d.0 n }
{
    let x = n as i32;
    if d.0 < 0 {
        EnhancementOffset(0 - x)
    } else {
        EnhancementOffset(x)
    }
}
