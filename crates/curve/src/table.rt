// De Casteljau's table of a curve, made in place on its sides, from which the load, both pieces and their exact flag are read.
// The sides stand one after the other, four for each control point, so that the compiler maps the four of a control point at once.
ghost use Rattle.std.specs.Prelude.{◌≡◌, ℕ, ◌-◌, ◌≤◌, ◌<◌, OnOk};
ghost use Rattle.curve.specs.Limits.{max_degree, places};
ghost use Rattle.curve.specs.Curve.{points_of};
ghost use Rattle.curve.specs.Refusals.{curve_refusal};
ghost use Rattle.curve.specs.Reason.{refusal_of};
ghost use Rattle.curve.specs.Inner.{Held, Factors, Stored, Taken, Begun, Staged, Tabled, placed};

use crate::affine::Weights;
use crate::checks::{check_lent, is_good};
use crate::zeros::zero_rect;
use crate::{Curve, Interval, PLACES, Reason, Rect, Rounded, check_degree};

// The sides of a rectangle, and of all places of a curve's record.
const RECT_SIDES: usize = 4;

pub const SIDES: usize = RECT_SIDES * PLACES;

// Stores a rectangle's sides at a place. The places are one flat array, four sides each, so that the compiler maps them at once (docs/DECISIONS.md).
fn store_rect(sides: &mut [i32; SIDES], k: usize, p: Rect)
    requires { k < places }
    ensures { Stored k p sides.old sides.new }
{
    let at = RECT_SIDES * k;
    sides[at] = p.resistance.low;
    sides[at + 1] = p.resistance.high;
    sides[at + 2] = p.reactance.low;
    sides[at + 3] = p.reactance.high;
}

// The rectangle at a place.
#[tactic(auto, unfolding(crate::specs::Inner::placed))]
pub fn rect_at(sides: &[i32; SIDES], k: usize) -> Rect
    requires { k < places }
    ensures { result ≡ placed sides.now k }
{
    let at = RECT_SIDES * k;
    Rect {
        resistance: Interval {
            low: sides[at],
            high: sides[at + 1],
        },
        reactance: Interval {
            low: sides[at + 2],
            high: sides[at + 3],
        },
    }
}

// The rectangles at all places.
#[tactic(auto, using(crate::proofs::Places::is_points))]
pub fn points_of(sides: &[i32; SIDES]) -> [Rect; PLACES]
    ensures { result ≡ points_of max_degree (placed sides.now) }
{
    let mut points = [zero_rect(); PLACES];
    for k in 0..PLACES {
        points[k] = rect_at(sides, k);
    }
    points
}

// Copies the sides of a curve that is accepted, and tests them in the same pass. Which refusal applies is looked for only where a test fails.
// They are lent, and in line, so that a call has one array of them: as a result's value they were copied twice (docs/DECISIONS.md).
#[inline(always)]
pub fn take_sides(sides: &mut [i32; SIDES], c: Curve) -> Result<(), Reason>
    ensures refusal { refusal_of result ≡ curve_refusal c }
    ensures taken { OnOk result (Taken c sides.new) }
{
    check_degree(c.degree)?;
    *sides = [0; SIDES];
    for k in 0..=c.degree as usize {
        let p = c.points[k];
        if !is_good(p) {
            check_lent(&c)?;
        }
        store_rect(sides, k, p);
    }
    Ok(())
}

// One stage in place: each of the first m rectangles becomes the map of itself and the next. Every second side is a high one, which is rounded up. It answers whether no map left a remainder.
fn stage(sides: &mut [i32; SIDES], m: usize, w: Weights) -> bool
    requires m_le_max_degree { m ≤ max_degree }
    requires by_index { (k : ℕ) → k ≤ m → Held (placed sides.old k) }
    ensures { Staged (w.den - w.t) w.t w.den m sides.old sides.new result }
{
    let end = RECT_SIDES * m;
    let mut exact = true;
    for i in 0..end {
        let mapped = w.map_side(sides[i], sides[i + RECT_SIDES], i % 2 == 1);
        sides[i] = mapped.value;
        exact &= mapped.exact;
    }
    exact
}

// The table of degree n at num/den: what its stages leave in place is the right piece, and the first rectangle of each is the left one.
// The two factors, and all that depends on them alone, are worked out once, before the stages begin.
#[inline(always)]
pub fn table_of(right: &mut [i32; SIDES], n: usize, num: u32, den: u32) -> Rounded<[i32; SIDES]>
    requires begun { Begun n right.old }
    requires factors { Factors (den - num) num den }
    ensures { Tabled (den - num) num den n (placed right.old) result.value right.new result.exact }
{
    let w = Weights::new(den - num, num);
    let mut left = [0; SIDES];
    store_rect(&mut left, 0, rect_at(right, 0));
    let mut exact = true;
    for j in 0..n {
        exact &= stage(right, n - j, w);
        store_rect(&mut left, j + 1, rect_at(right, 0));
    }
    Rounded { value: left, exact }
}
