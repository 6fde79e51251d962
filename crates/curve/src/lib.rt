// The load of an antenna across a band as an interval Bézier curve: records, and the calls that evaluate, subdivide, elevate and bound it.
// Every call takes any record and any numbers, answers a refusal for bad input, and equals its definition in specs/Calls.antt.
#![tactic(auto)]

ghost use Rattle.std.specs.Prelude.{◌≡◌};
ghost use Rattle.curve.specs.Results.{as_evaluation, as_subdivision, as_elevation, as_bounding_rect};
ghost use Rattle.curve.specs.Calls.{evaluated, subdivided, elevated, bounded};

mod affine;
mod checks;
mod display;
mod elevating;
mod hull;
mod reason;
mod records;
mod sums;
mod table;
mod zeros;

use checks::{check_parameter, check_raising};
use display::ohms_of;
use elevating::elevated_points;
use hull::hull_of;
use sums::{elevated_sum, piece_sum};
use table::{SIDES, points_of, rect_at, table_of, take_sides};

// Why a call is refused, and the result of a test.
pub use reason::{Reason, ensure};

// The check of a degree by itself, refusal 1, and of a curve by itself, refusals 1 to 3, by value and lent.
pub use checks::{check_curve, check_degree, check_lent};

// Whether a number is from 1 to a largest one.
pub use checks::is_from_one_to;

// The check of an interval by itself: both ends are in range. And of a rectangle by itself: its sides are in range and in order.
pub use checks::{ends_in_range, is_good};

// Refusal 17, of a sum of steps that a call would reach.
pub use sums::check_sum;

// A rectangle in ohms.
pub use display::checked_ohms;

// The zero rectangle and the zero curve.
pub use zeros::{zero_curve, zero_rect};

// The highest degree of a curve.
pub const MAX_DEGREE: u32 = 8;

// The places of a curve's record: one more than the highest degree.
pub const PLACES: usize = 9;

// The least and the largest side, in steps of 1/1,024 ohm.
pub const MIN_SIDE: i32 = -16777216;

pub const MAX_SIDE: i32 = 16777216;

// The largest denominator of a parameter.
pub const MAX_DEN: u32 = 65536;

// The largest sum of steps of a curve.
pub const MAX_SUM: u64 = 65535;

// The values from low to high, in steps, both ends included. It lies in memory as C lays it out, and so does a rectangle: callers in C lend records that hold one.
#[repr(C)]
#[derive(Clone, Copy)]
pub struct Interval {
    pub low: i32,
    pub high: i32,
}

// A rectangle of loads.
#[repr(C)]
#[derive(Clone, Copy)]
pub struct Rect {
    pub resistance: Interval,
    pub reactance: Interval,
}

// A curve of a degree n, whose control points are the rectangles 0 to n; places past n are not read. The sum of steps tells how far a side may lie beyond that of
// the same cuts and raisings without rounding, from the card on. The points stand first, where they are copied fastest; they are an array with the degree beside it, since document 01's record has nine places and there is no heap.
#[derive(Clone, Copy)]
pub struct Curve {
    pub points: [Rect; PLACES],
    pub degree: u32,
    pub sum: u16,
}

// A refusal's number and place, as the papers list them; number 0 says that the call was accepted. It stays a record of the two, since the definitions of specs/ and
// what is promised of them (`ListedAnswers`) speak of both.
#[derive(Clone, Copy)]
pub struct Refusal {
    pub number: u32,
    pub place: usize,
}

impl Refusal {
    // The refusal of an accepted call.
    pub const NONE: Refusal = Refusal {
        number: 0,
        place: 0,
    };
}

// A rectangle in ohms: resistance (R) and reactance (X), low and high.
#[derive(Clone, Copy)]
pub struct Ohms {
    pub rlow: f32,
    pub rhigh: f32,
    pub xlow: f32,
    pub xhigh: f32,
}

// A value whose sides were rounded outward, and whether no division left a remainder.
#[derive(Clone, Copy)]
pub struct Rounded<T> {
    pub value: T,
    pub exact: bool,
}

// What a reading gives where it is not refused: a load, the same in ohms, and whether no division left a remainder.
#[derive(Clone, Copy)]
pub struct Reading {
    pub load: Rect,
    pub ohms: Ohms,
    pub exact: bool,
}

// The answer of evaluate, and of the reading at sixteenths. It stays a record, as the three below: demand 1 asks that a refusal carries its number and place and
// zeros, and the definitions of specs/Calls.antt answer that. The flag `exact` of each answer tells that no division left a remainder; it is dark, false, where the call is refused.
#[derive(Clone, Copy)]
pub struct Evaluation {
    pub refusal: Refusal,
    pub load: Rect,
    pub ohms: Ohms,
    pub exact: bool,
}

// The answer of subdivide.
#[derive(Clone, Copy)]
pub struct Subdivision {
    pub refusal: Refusal,
    pub left: Curve,
    pub right: Curve,
    pub exact: bool,
}

// The answer of elevate.
#[derive(Clone, Copy)]
pub struct Elevation {
    pub refusal: Refusal,
    pub curve: Curve,
    pub exact: bool,
}

// The answer of bounds.
#[derive(Clone, Copy)]
pub struct BoundingRect {
    pub refusal: Refusal,
    pub rect: Rect,
}

// The two pieces of the curve at num/den, off de Casteljau's table, every stage rounded outward; refusals 1 to 5 and 17.
pub fn subdivide(c: Curve, num: u32, den: u32) -> Subdivision
    ensures { result ≡ subdivided c num den }
{
    Subdivision::from(try_subdivide(c, num, den))
}

// The same as a result.
#[tactic(auto, unfolding(crate::specs::Calls::subdivided, crate::specs::Calls::subdivision_refusal, crate::specs::Calls::call_refusal))]
pub fn try_subdivide(c: Curve, num: u32, den: u32) -> Result<Rounded<(Curve, Curve)>, Reason>
    ensures { as_subdivision result ≡ subdivided c num den }
{
    let mut rest = [0; SIDES];
    take_sides(&mut rest, c)?;
    let degree = c.degree;
    check_parameter(num, den)?;
    let sum = check_sum(piece_sum(c.sum, degree))?;
    let start = table_of(&mut rest, degree as usize, num, den);
    let left = Curve {
        degree,
        sum,
        points: points_of(&start.value),
    };
    let right = Curve {
        degree,
        sum,
        points: points_of(&rest),
    };
    Ok(Rounded {
        value: (left, right),
        exact: start.exact,
    })
}

// The load at num/den, which is the last rectangle of the same table and the first one of the right piece; refusals 1 to 5.
pub fn evaluate(c: Curve, num: u32, den: u32) -> Evaluation
    ensures { result ≡ evaluated c num den }
{
    Evaluation::from(try_evaluate(c, num, den))
}

// The same as a result.
#[tactic(auto, unfolding(crate::specs::Calls::evaluated, crate::specs::Calls::call_refusal))]
pub fn try_evaluate(c: Curve, num: u32, den: u32) -> Result<Reading, Reason>
    ensures { as_evaluation result ≡ evaluated c num den }
{
    let mut rest = [0; SIDES];
    take_sides(&mut rest, c)?;
    check_parameter(num, den)?;
    let start = table_of(&mut rest, c.degree as usize, num, den);
    let load = rect_at(&rest, 0);
    Ok(Reading {
        load,
        ohms: ohms_of(load),
        exact: start.exact,
    })
}

// The same curve with its degree raised by one, each control point rounded outward once; refusals 1 to 3, 6 and 17.
pub fn elevate(c: Curve) -> Elevation
    ensures { result ≡ elevated c }
{
    Elevation::from(try_elevate(c))
}

// The same as a result.
#[tactic(auto, using(crate::proofs::Accepted::accepted_ready), unfolding(crate::specs::Calls::elevated, crate::specs::Calls::elevation_refusal, crate::specs::Curve::elevated_of, crate::specs::Refusals::highest_refusal))]
pub fn try_elevate(c: Curve) -> Result<Rounded<Curve>, Reason>
    ensures { as_elevation result ≡ elevated c }
{
    check_lent(&c)?;
    check_raising(c.degree)?;
    let sum = check_sum(elevated_sum(c.sum))?;
    let raised = elevated_points(&c);
    let points = raised.value;
    Ok(Rounded {
        value: Curve {
            degree: c.degree + 1,
            sum,
            points,
        },
        exact: raised.exact,
    })
}

// The least rectangle that holds every control point; refusals 1 to 3.
pub fn bounds(c: Curve) -> BoundingRect
    ensures { result ≡ bounded c }
{
    BoundingRect::from(try_bounds(c))
}

// The same as a result.
#[tactic(auto, using(crate::proofs::Accepted::accepted_ready), unfolding(crate::specs::Calls::bounded))]
pub fn try_bounds(c: Curve) -> Result<Rect, Reason>
    ensures { as_bounding_rect result ≡ bounded c }
{
    check_lent(&c)?;
    Ok(hull_of(&c))
}
