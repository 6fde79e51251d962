// How a rectangle lies to a box, and the check of a box by itself. A box's low sides lie inside it, its high sides outside.
// Span and box are the two operands. Each test asks both coordinates; with the interval's test as a closure it would still be a line, and would need the closure's clause.
ghost use Rattle.std.specs.Prelude.{◌≡◌};
ghost use Rattle.search.specs.Box.{within, disjoint, in_box, apart_from, are_limits, is_box};

use curve::{Interval, Rect};

#[tactic(auto, unfolding(crate::specs::Box::within))]
fn interval_within(span: Interval, limits: Interval) -> bool
    ensures { result ≡ within span limits }
{
    limits.low <= span.low && span.high < limits.high
}

#[tactic(auto, unfolding(crate::specs::Box::disjoint))]
fn intervals_disjoint(span: Interval, limits: Interval) -> bool
    ensures { result ≡ disjoint span limits }
{
    span.high < limits.low || limits.high <= span.low
}

// Whether the span lies in the box.
#[tactic(auto, unfolding(crate::specs::Box::in_box))]
pub fn in_box(span: Rect, limits: Rect) -> bool
    ensures { result ≡ in_box span limits }
{
    interval_within(span.resistance, limits.resistance)
        && interval_within(span.reactance, limits.reactance)
}

// Whether the span and the box have no common point.
#[tactic(auto, unfolding(crate::specs::Box::apart_from))]
pub fn apart_from(span: Rect, limits: Rect) -> bool
    ensures { result ≡ apart_from span limits }
{
    intervals_disjoint(span.resistance, limits.resistance)
        || intervals_disjoint(span.reactance, limits.reactance)
}

#[tactic(auto, unfolding(crate::specs::Box::are_limits))]
fn are_limits(limits: Interval) -> bool
    ensures { result ≡ are_limits limits }
{
    curve::ends_in_range(limits) && limits.low < limits.high
}

// Whether the box's sides are in range, and each low one is below its high one.
#[tactic(auto, unfolding(crate::specs::Box::is_box))]
pub fn is_box(limits: Rect) -> bool
    ensures { result ≡ is_box limits }
{
    are_limits(limits.resistance) && are_limits(limits.reactance)
}
