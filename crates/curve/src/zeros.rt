// The zero rectangle and the zero curve: what a refused call gives, and what places past a degree hold.
ghost use Rattle.std.specs.Prelude.{◌≡◌};
ghost use Rattle.curve.specs.Rect.{zero_rect};
ghost use Rattle.curve.specs.Curve.{zero_curve};

use crate::{Curve, Interval, PLACES, Rect};

pub fn zero_rect() -> Rect
    ensures { result ≡ zero_rect }
{
    Rect {
        resistance: Interval { low: 0, high: 0 },
        reactance: Interval { low: 0, high: 0 },
    }
}

#[tactic(auto, unfolding(crate::specs::Curve::points_of, crate::specs::Curve::tabulate))]
pub fn zero_curve() -> Curve
    ensures { result ≡ zero_curve }
{
    Curve {
        degree: 0,
        sum: 0,
        points: [zero_rect(); PLACES],
    }
}
