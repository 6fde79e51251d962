// Rectangles, curves and measurements from the numbers that a caller lends. A number that a slice does not have is out of range.
ghost use Rattle.std.specs.Prelude.{◌≡◌, ◌+◌, ◌*◌, ◌≤◌};
ghost use Rattle.curve.specs.Limits.{max_degree};
ghost use Rattle.card_text.specs.Reading.{degree_of};
ghost use Rattle.interface.specs.Numbers.{given_at, rect_at, sum_from, curve_from, measurement_from};

use crate::results::{HEAD, RECT_LENGTH};
use bridge::Measurement;
use curve::{Curve, Interval, MAX_DEGREE, MAX_SIDE, PLACES, Rect, zero_curve, zero_rect};

// What stands for a number that a slice does not have: out of range as a degree, as a sum and as a side.
const MISSING: i32 = MAX_SIDE + 1;

// The number at an index. `given_at` of the exports' contracts has a number for a missing one, so it is no option.
fn number_at(numbers: &[i32], k: usize) -> i32
    ensures { result ≡ given_at numbers.now k }
{
    numbers.get(k).copied().unwrap_or(MISSING)
}

// A rectangle that lacks a side, as `rect_at` of the exports' contracts has it.
const MISSING_INTERVAL: Interval = Interval {
    low: MISSING,
    high: MISSING,
};

const MISSING_RECT: Rect = Rect {
    resistance: MISSING_INTERVAL,
    reactance: MISSING_INTERVAL,
};

// The rectangle whose sides begin at an index, which is one of a curve's: all four of them or none, since a lent slice, unlike a table, may be short.
pub fn rect_at(numbers: &[i32], at: usize) -> Rect
    requires { at ≤ 2 + 4 * max_degree }
    ensures { result ≡ rect_at numbers.now at }
{
    let Some([rlow, rhigh, xlow, xhigh]) = numbers.get(at..at + RECT_LENGTH) else {
        return MISSING_RECT;
    };
    Rect {
        resistance: Interval {
            low: *rlow,
            high: *rhigh,
        },
        reactance: Interval {
            low: *xlow,
            high: *xhigh,
        },
    }
}

// A number as a degree: one that is none becomes 0. It refuses nothing, unlike the card's: `degree_of` of the exports' contracts gives 0.
fn degree_from(number: i32) -> u32
    ensures { result ≡ degree_of number }
{
    match u32::try_from(number) {
        Ok(degree) if degree <= MAX_DEGREE => degree,
        _ => 0,
    }
}

// A number as a sum of steps: one that is none becomes the largest, as `sum_from` of the exports' contracts has it.
fn sum_from(number: i32) -> u16
    ensures { result ≡ sum_from number }
{
    u16::try_from(number).unwrap_or(u16::MAX)
}

// The curve that a slice's numbers give. The first rectangle is read before the loop, which then runs at most eight times, as the compiler knows
// from the test right before it, and writes out: a summed reading of degree 8 took 67 ns so, and 75 with a loop over all rectangles.
pub fn curve_from(numbers: &[i32]) -> Curve
    ensures { result ≡ curve_from numbers.now }
{
    let sum = sum_from(number_at(numbers, 1));
    let first = rect_at(numbers, HEAD);
    let degree = degree_from(number_at(numbers, 0));
    if degree == 0 {
        return zero_curve();
    }
    let mut points = [zero_rect(); PLACES];
    points[0] = first;
    for k in 1..=degree as usize {
        points[k] = rect_at(numbers, HEAD + RECT_LENGTH * k);
    }
    Curve {
        degree,
        sum,
        points,
    }
}

// The measurement with these numbers: no carrier, a load, or a load with a spread. What a slice of another length lacks is not a number, as `ohms_at` and `spread_from` of the exports' contracts have it.
pub fn measurement_from(ohms: &[f32]) -> Measurement
    ensures { result ≡ measurement_from ohms.now }
{
    match *ohms {
        [] => Measurement::NoCarrier,
        [resistance] => Measurement::Load {
            resistance,
            reactance: f32::NAN,
        },
        [resistance, reactance] => Measurement::Load {
            resistance,
            reactance,
        },
        [resistance, reactance, spread] => Measurement::LoadWithSpread {
            resistance,
            reactance,
            spread,
        },
        [resistance, reactance, ..] => Measurement::LoadWithSpread {
            resistance,
            reactance,
            spread: f32::NAN,
        },
    }
}
