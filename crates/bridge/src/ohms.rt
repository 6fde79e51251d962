// Single-precision ohms by their bits: their tests, and the whole steps about them. Without the sign, bits are in the order of the sizes.
// No float is computed with, so that a processor that takes subnormal numbers for zero, or rounds another way, answers alike; each is
// asked once whether it is a number, since what is none has no bits in the proofs.
ghost use Rattle.std.specs.Prelude.{◌≡◌, ◌≤◌, T};
ghost use Rattle.curve.specs.Inner.{Side, Sides};
ghost use Rattle.bridge.specs.Value.{is_load, is_spread, steps_about};
ghost use Rattle.bridge.specs.Bridge.{widened};
ghost use Rattle.bridge.specs.Inner.{largest, size_about};

use curve::Interval;

// The weights of the sign and of the exponent's field among the bits.
const SIGN: u32 = 0x8000_0000;

const FIELD: u32 = 0x80_0000;

// The bits of 16,384 ohms and of one step, and the exponent's field of 16,384 ohms.
const LARGEST: u32 = 0x4680_0000;

const STEP: u32 = 0x3a80_0000;

const LARGEST_FIELD: u32 = 141;

// Whether a number is a coordinate of a load.
pub fn is_load(x: f32) -> bool
    ensures { result ≡ is_load x }
{
    !x.is_nan() && x.to_bits() % SIGN <= LARGEST
}

// Whether a number is a spread; minus zero is one.
pub fn is_spread(x: f32) -> bool
    ensures { result ≡ is_spread x }
{
    !x.is_nan() && (x.to_bits() <= LARGEST || x.to_bits() == SIGN)
}

// The steps below and above a size, by its bits. 16,384 ohms are 2^24 steps, so twice the digits, shifted by as much as the exponent is
// below that of 16,384 ohms, are the steps rounded down; one taken off before the shift and added after it rounds them up.
fn size_about(bits: u32) -> Interval
    requires { bits ≤ largest }
    ensures { result ≡ size_about bits }
{
    if bits < STEP {
        return Interval {
            low: 0,
            high: i32::from(bits != 0),
        };
    }
    let shift = LARGEST_FIELD - bits / FIELD;
    let digits = 2 * (FIELD + bits % FIELD);
    Interval {
        low: (digits >> shift) as i32,
        high: (((digits - 1) >> shift) + 1) as i32,
    }
}

// The steps below and above a load's coordinate or a spread.
pub fn steps_about(x: f32) -> Interval
    requires { T (is_load x) }
    ensures { result ≡ steps_about x }
{
    let bits = x.to_bits();
    let size = size_about(bits % SIGN);
    if bits < SIGN {
        return size;
    }
    Interval {
        low: -size.high,
        high: -size.low,
    }
}

// An interval with both ends moved outward. In range stays a clause: an `Interval` lies in memory as C lends it, with any numbers.
pub fn widened(i: Interval, by: i32) -> Interval
    requires sides { Sides i }
    requires side { Side by }
    ensures { result ≡ widened i by }
{
    Interval {
        low: i.low - by,
        high: i.high + by,
    }
}
