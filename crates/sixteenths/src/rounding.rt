// The four sums divided by 16 to the power n, each side rounded outward, and whether no division left a remainder.
ghost use Rattle.std.specs.Prelude.{◌≡◌, ◌&&◌, ◌*◌, ◌^◌, ◌≤◌, pos, ◌-ℤ◌};
ghost use Rattle.rational.specs.Rounding.{Rounding, down, up, rounding_of, quotient, divisible};
ghost use Rattle.curve.specs.Limits.{max_side};
ghost use Rattle.curve.specs.Rect.{Coordinate, resistance, reactance, side};
ghost use Rattle.sixteenths.specs.Weights.{sixteenths, highest};
ghost use Rattle.sixteenths.specs.Inner.{sum_at, SmallQuotients};

use crate::sums::Sums;
use curve::{Interval, MAX_SIDE, Rect, Rounded};

// A sum of lifted sides divided by 16 to the power n, rounded up or down, and moved down again. `up` is the `rounding_of` of its clause.
fn divided(sum: u64, n: u32, up: bool) -> Rounded<i32>
    requires n_le_highest { n ≤ highest }
    requires sum_bound { sum ≤ 2 * max_side * sixteenths ^ n }
    ensures { (result.value ≡ quotient (rounding_of up) (pos sum) (sixteenths ^ n) -ℤ pos max_side) × (result.exact ≡ divisible (pos sum) (sixteenths ^ n)) }
{
    let size = 1 << (4 * n);
    let steps = sum >> (4 * n);
    let reached = steps * size;
    let rounded = steps + u64::from(up & (reached < sum));
    Rounded {
        value: rounded as i32 - MAX_SIDE,
        exact: sum == reached,
    }
}

// All four sides.
pub fn rounded_load(s: Sums, n: u32) -> Rounded<Rect>
    requires n_le_highest { n ≤ highest }
    requires small_quotients { SmallQuotients n s }
    ensures { ((x : Coordinate) (r : Rounding) → side x r result.value ≡ quotient r (pos (sum_at x r s)) (sixteenths ^ n) -ℤ pos max_side) × (result.exact ≡ ((divisible (pos (sum_at resistance down s)) (sixteenths ^ n) && divisible (pos (sum_at resistance up s)) (sixteenths ^ n)) && (divisible (pos (sum_at reactance down s)) (sixteenths ^ n) && divisible (pos (sum_at reactance up s)) (sixteenths ^ n)))) }
{
    let rlow = divided(s.rlow, n, false);
    let rhigh = divided(s.rhigh, n, true);
    let xlow = divided(s.xlow, n, false);
    let xhigh = divided(s.xhigh, n, true);
    Rounded {
        value: Rect {
            resistance: Interval {
                low: rlow.value,
                high: rhigh.value,
            },
            reactance: Interval {
                low: xlow.value,
                high: xhigh.value,
            },
        },
        exact: (rlow.exact & rhigh.exact) & (xlow.exact & xhigh.exact),
    }
}
