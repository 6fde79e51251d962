// The affine map of two sides, intervals and rectangles, rounded outward, and whether its division left no remainder. No map divides.
// That sides are in range stays a clause of each map: `Interval` and `Rect` lie in memory as callers in C lend them, with any numbers. `up` is the `rounding_of` of the definitions.
// The quotient is estimated by one product with the factor's part of the divisor. What the product back leaves tells how to round the estimate, and whether it is exact.
ghost use Rattle.std.specs.Prelude.{◌≡◌, ◌+◌, ◌-◌, ◌*◌, ◌<◌, ◌≤◌, pos};
ghost use Rattle.rational.specs.Rounding.{rounding_of, quotient, divisible};
ghost use Rattle.bernstein.specs.Affine.{affine, affine_exact};
ghost use Rattle.curve.specs.Limits.{max_degree, max_den};
ghost use Rattle.curve.specs.Rect.{affine_interval, affine_rect, exact_interval, exact_rect};
ghost use Rattle.curve.specs.Inner.{Side, Sides, Held, Part, scale, turns_of};

use crate::{Interval, Rect, Rounded};

// The scale of a factor's part of its divisor, 2 to the power 31. With it every factor of a product fits 32 bits, so that several sides can be mapped at once.
pub const SCALE: u64 = 2147483648;

// How far apart two sides can be.
const FARTHEST: u32 = 33554432;

// How often den goes into its lift.
pub fn turns_of(den: u32) -> u32
    requires den_nonzero { 0 < den }
    requires den_le_max_den { den ≤ max_den }
    ensures { result ≡ turns_of den }
{
    FARTHEST.div_ceil(den)
}

// What the maps share in which the second point has the factor t of the divisor den: `part`, t / den in parts of the scale, rounded up,
// and `lift`, a multiple of den that no two sides are farther apart than, with `back`, t / den of it.
#[derive(Clone, Copy)]
pub struct Weights {
    pub t: u32,
    pub den: u32,
    pub part: u32,
    pub lift: u32,
    pub back: u32,
    ghost positive: { 0 < den },
    ghost small: { den ≤ max_den },
    ghost most: { t ≤ den },
    ghost part_least: { t * scale ≤ part * den },
    ghost part_most: { part * den ≤ t * scale + max_degree * den },
    ghost level: { lift * t ≡ back * den },
    ghost lift_least: { 33554432 ≤ lift },
    ghost lift_most: { lift ≤ 33554431 + max_den },
}

impl Weights {
    // The weights of two factors, which add up to the divisor. They are made from these clauses and hold them from then on.
    pub fn new(s: u32, t: u32) -> Weights
        requires t_nonzero { 0 < s + t }
        requires t_bound { s + t ≤ max_den }
        ensures factor { result.t ≡ t }
        ensures divisor { result.den ≡ s + t }
    {
        let den = s + t;
        let part = (u64::from(t) * SCALE).div_ceil(u64::from(den));
        Weights::with_part(s, t, part as u32, turns_of(den))
    }

    // The same where the part of the second factor is known, so that a divisor with many factors is divided by once.
    pub fn with_part(s: u32, t: u32, part: u32, turns: u32) -> Weights
        requires t_nonzero { 0 < s + t }
        requires t_bound { s + t ≤ max_den }
        requires part { Part t (s + t) part }
        requires turns_value { turns ≡ turns_of (s + t) }
        ensures factor { result.t ≡ t }
        ensures divisor { result.den ≡ s + t }
    {
        let den = s + t;
        Weights {
            t,
            den,
            part,
            lift: turns * den,
            back: turns * t,
        }
    }

    // distance × t / den, rounded up or down. The estimate is off by less than 1, and right where nothing is left.
    // It widens by `as`: with `From` in its place the proof did not close.
    fn quotient_of(self, distance: u32, up: bool) -> Rounded<i32>
        requires { distance ≤ 33554432 + self.lift }
        ensures { (result.value ≡ quotient (rounding_of up) (pos (distance * self.t)) self.den) × (result.exact ≡ divisible (pos (distance * self.t)) self.den) }
    {
        let estimate = (distance as u64 * self.part as u64 / SCALE) as u32;
        let product = distance as u64 * self.t as u64;
        let reached = estimate as u64 * self.den as u64;
        let rest = (product as i64 - reached as i64) as i32;
        let step = up as i32;
        Rounded {
            value: estimate as i32 + step - (rest < step) as i32,
            exact: rest == 0,
        }
    }

    // (s × a + t × b) / den, rounded up or down, for the factor s that makes up den with t. With the lift the distance from a to b is never below 0.
    pub fn map_side(self, a: i32, b: i32, up: bool) -> Rounded<i32>
        requires side { Side a }
        requires side_2 { Side b }
        ensures { (result.value ≡ affine (rounding_of up) (self.den - self.t) self.t self.den a b) × (result.exact ≡ affine_exact (self.den - self.t) self.t self.den a b) }
    {
        let distance = (b - a + self.lift as i32) as u32;
        let quotient = self.quotient_of(distance, up);
        let start = a - self.back as i32;
        Rounded {
            value: start + quotient.value,
            exact: quotient.exact,
        }
    }

    #[tactic(auto, unfolding(crate::specs::Rect::affine_interval, crate::specs::Rect::exact_interval))]
    fn map_interval(self, i: Interval, j: Interval) -> Rounded<Interval>
        requires sides { Sides i }
        requires sides_2 { Sides j }
        ensures { (result.value ≡ affine_interval (self.den - self.t) self.t self.den i j) × (result.exact ≡ exact_interval (self.den - self.t) self.t self.den i j) }
    {
        let low = self.map_side(i.low, j.low, false);
        let high = self.map_side(i.high, j.high, true);
        Rounded {
            value: Interval {
                low: low.value,
                high: high.value,
            },
            exact: low.exact & high.exact,
        }
    }

    // All four sides.
    #[tactic(auto, unfolding(crate::specs::Rect::affine_rect, crate::specs::Rect::exact_rect))]
    pub fn map_rect(self, p: Rect, q: Rect) -> Rounded<Rect>
        requires held { Held p }
        requires held_2 { Held q }
        ensures { (result.value ≡ affine_rect (self.den - self.t) self.t self.den p q) × (result.exact ≡ exact_rect (self.den - self.t) self.t self.den p q) }
    {
        let resistance = self.map_interval(p.resistance, q.resistance);
        let reactance = self.map_interval(p.reactance, q.reactance);
        Rounded {
            value: Rect {
                resistance: resistance.value,
                reactance: reactance.value,
            },
            exact: resistance.exact & reactance.exact,
        }
    }
}
