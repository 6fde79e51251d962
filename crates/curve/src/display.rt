// Sides in single-precision ohms, with nothing lost: a side is at most 2^24 steps, and a step is a power of two of an ohm.
// In range stays a clause, here as elsewhere: a `Rect` lies in memory as C lends it, with any numbers.
ghost use Rattle.std.specs.Prelude.{◌≡◌};
ghost use Rattle.curve.specs.Inner.{Side, Held};
ghost use Rattle.curve.specs.Ohms.{ohm, ohms_of, checked_ohms};

use crate::checks::sides_in_range;
use crate::zeros::zero_rect;
use crate::{Ohms, Rect};

fn ohms_of_side(side: i32) -> f32
    requires { Side side }
    ensures { result ≡ ohm side }
{
    side as f32 / 1024.0
}

#[tactic(auto, unfolding(crate::specs::Ohms::ohms_of))]
pub fn ohms_of(p: Rect) -> Ohms
    requires { Held p }
    ensures { result ≡ ohms_of p }
{
    let r = p.resistance;
    let x = p.reactance;
    Ohms {
        rlow: ohms_of_side(r.low),
        rhigh: ohms_of_side(r.high),
        xlow: ohms_of_side(x.low),
        xhigh: ohms_of_side(x.high),
    }
}

// The same of any rectangle: zeros where a side is out of range.
#[tactic(auto, unfolding(crate::specs::Ohms::checked_ohms))]
pub fn checked_ohms(p: Rect) -> Ohms
    ensures { result ≡ checked_ohms p }
{
    if !sides_in_range(p) {
        return ohms_of(zero_rect());
    }
    ohms_of(p)
}
