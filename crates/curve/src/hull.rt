// The least rectangle that holds all control points of a curve.
ghost use Rattle.std.specs.Prelude.{◌≡◌};
ghost use Rattle.curve.specs.Rect.{hull_interval, hull};
ghost use Rattle.curve.specs.Curve.{bounds_of};
ghost use Rattle.curve.specs.Inner.{Ready};

use crate::{Curve, Interval, Rect};

fn hull_interval(i: Interval, j: Interval) -> Interval
    ensures { result ≡ hull_interval i j }
{
    Interval {
        low: i.low.min(j.low),
        high: i.high.max(j.high),
    }
}

#[tactic(auto, unfolding(crate::specs::Rect::hull))]
fn hull_rect(p: Rect, q: Rect) -> Rect
    ensures { result ≡ hull p q }
{
    Rect {
        resistance: hull_interval(p.resistance, q.resistance),
        reactance: hull_interval(p.reactance, q.reactance),
    }
}

#[tactic(auto, unfolding(crate::specs::Curve::bounds_of, crate::specs::Curve::hull_to))]
pub fn hull_of(c: &Curve) -> Rect
    requires { Ready c.now }
    ensures { result ≡ bounds_of c.now }
{
    let n = c.degree as usize;
    let mut held = c.points[0];
    for p in &c.points[1..=n] {
        held = hull_rect(held, *p);
    }
    held
}
