// The checks of a curve, of a parameter and of a call: the first reason to refuse that applies, in the papers' order.
ghost use Rattle.std.specs.Prelude.{◌≡◌, ◌&&◌, ◌≤◌, leb};
ghost use Rattle.curve.specs.Rect.{in_range, ends_in_range, sides_in_range, ends_ordered, sides_ordered};
ghost use Rattle.curve.specs.Limits.{max_degree};
ghost use Rattle.curve.specs.Refusals.{
  ◌or_else◌,
  degree_refusal,
  range_refusal,
  order_refusal,
  curve_refusal,
  parameter_refusal,
  highest_refusal,
};
ghost use Rattle.curve.specs.Reason.{refusal_of};

use crate::{Curve, Interval, MAX_DEGREE, MAX_DEN, MAX_SIDE, MIN_SIDE, Reason, Rect, ensure};

#[tactic(auto, unfolding(crate::specs::Rect::in_range))]
fn in_range(side: i32) -> bool
    ensures { result ≡ in_range side }
{
    (MIN_SIDE..=MAX_SIDE).contains(&side)
}

#[tactic(auto, unfolding(crate::specs::Rect::ends_in_range))]
pub fn ends_in_range(i: Interval) -> bool
    ensures { result ≡ ends_in_range i }
{
    in_range(i.low) && in_range(i.high)
}

// Each test of a rectangle asks both coordinates. With the interval's test as a closure it would still be a line, and would need the closure's clause.
#[tactic(auto, unfolding(crate::specs::Rect::sides_in_range))]
pub fn sides_in_range(p: Rect) -> bool
    ensures { result ≡ sides_in_range p }
{
    ends_in_range(p.resistance) && ends_in_range(p.reactance)
}

#[tactic(auto, unfolding(crate::specs::Rect::ends_ordered))]
fn ends_ordered(i: Interval) -> bool
    ensures { result ≡ ends_ordered i }
{
    i.low <= i.high
}

#[tactic(auto, unfolding(crate::specs::Rect::sides_ordered))]
fn sides_ordered(p: Rect) -> bool
    ensures { result ≡ sides_ordered p }
{
    ends_ordered(p.resistance) && ends_ordered(p.reactance)
}

// Whether an interval's ends are in range and in order. Of ends in order one test each tells that both are in range, which no range's `contains` says.
#[tactic(auto, unfolding(crate::specs::Rect::in_range, crate::specs::Rect::ends_in_range, crate::specs::Rect::ends_ordered))]
fn is_good_interval(i: Interval) -> bool
    ensures { result ≡ (ends_in_range i && ends_ordered i) }
{
    MIN_SIDE <= i.low && (i.low <= i.high && i.high <= MAX_SIDE)
}

// Whether a rectangle's sides are in range and in order.
#[tactic(auto, unfolding(crate::specs::Rect::sides_in_range, crate::specs::Rect::sides_ordered))]
pub fn is_good(p: Rect) -> bool
    ensures { result ≡ (sides_in_range p && sides_ordered p) }
{
    is_good_interval(p.resistance) && is_good_interval(p.reactance)
}

// Whether a number is from 1 to the largest that is allowed.
pub fn is_from_one_to(x: u32, largest: u32) -> bool
    ensures { result ≡ (leb 1 x && leb x largest) }
{
    (1..=largest).contains(&x)
}

// Refusal 1.
#[tactic(auto, unfolding(crate::specs::Reason::refusal_of, crate::specs::Refusals::degree_refusal))]
pub fn check_degree(degree: u32) -> Result<(), Reason>
    ensures { refusal_of result ≡ degree_refusal degree }
{
    ensure(is_from_one_to(degree, MAX_DEGREE), Reason::Degree)
}

// Refusals 2 and 3 in one pass: a side out of range ends it, and the first low above its high is kept for the end. A good rectangle takes one test, `is_good`.
// That the degree is one stays a clause: a curve is document 01's record, which may hold any.
#[tactic(auto, using(crate::proofs::Refused::first_step), unfolding(crate::specs::Refusals::range_refusal, crate::specs::Refusals::order_refusal, crate::specs::Refusals::first_failing))]
fn check_points(c: &Curve) -> Result<(), Reason>
    requires { c.now.degree ≤ max_degree }
    ensures { refusal_of result ≡ (range_refusal c.now or_else order_refusal c.now) }
{
    let n = c.degree as usize;
    let mut ordered = Ok(());
    for place in 0..=n {
        let p = c.points[place];
        if !is_good(p) {
            ensure(sides_in_range(p), Reason::SideOutOfRange { place })?;
            ordered = ordered.and(Err(Reason::LowAboveHigh { place }));
        }
    }
    ordered
}

// Refusals 1 to 3 of a curve that is lent: by value each check, put in line, copied it.
#[tactic(auto, unfolding(crate::specs::Refusals::curve_refusal))]
pub fn check_lent(c: &Curve) -> Result<(), Reason>
    ensures { refusal_of result ≡ curve_refusal c.now }
{
    check_degree(c.degree)?;
    check_points(c)
}

// Refusals 1 to 3.
pub fn check_curve(c: Curve) -> Result<(), Reason>
    ensures { refusal_of result ≡ curve_refusal c }
{
    check_lent(&c)
}

// Refusals 4 and 5. The two numbers stay apart here and in the calls, as document 01 has them.
#[tactic(auto, unfolding(crate::specs::Refusals::parameter_refusal))]
pub fn check_parameter(num: u32, den: u32) -> Result<(), Reason>
    ensures { refusal_of result ≡ parameter_refusal num den }
{
    ensure(is_from_one_to(den, MAX_DEN), Reason::Denominator)?;
    ensure(num <= den, Reason::Numerator)
}

// Refusal 6.
#[tactic(auto, unfolding(crate::specs::Refusals::highest_refusal))]
pub fn check_raising(degree: u32) -> Result<(), Reason>
    ensures { refusal_of result ≡ highest_refusal degree }
{
    ensure(degree < MAX_DEGREE, Reason::HighestDegree)
}
