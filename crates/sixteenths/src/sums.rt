// The four sums of a reading, over all control points of a curve, each side times its weight. Sides are moved up by the largest one first,
// so that natural numbers are added; a sum is at most 2 to the power 57.
ghost use Rattle.std.specs.Prelude.{◌≡◌, ℕ, ◌+◌, ◌*◌, ◌-◌, ◌<◌, ◌≤◌, length, get_or, is_some, IfSome};
ghost use Rattle.bernstein.specs.WholeSum.{weight};
ghost use Rattle.curve.specs.Curve.{point};
ghost use Rattle.curve.specs.Inner.{Side, Held};
ghost use Rattle.sixteenths.specs.Weights.{sixteenths, highest};
ghost use Rattle.sixteenths.specs.Inner.{largest_weight, lifted, added_to, Roomy, Summed, good_below, accepts};

use crate::SIXTEENTHS;
use crate::weights::weights_at;
use curve::{Curve, MAX_SIDE, Rect, is_good};

// Four numbers by name, as Ohms has them: with one type for a coordinate's two, each function here would be two, of as many lines.
#[derive(Clone, Copy, Default)]
pub struct Sums {
    pub rlow: u64,
    pub rhigh: u64,
    pub xlow: u64,
    pub xhigh: u64,
}

// A lifted side times its weight. In range stays a clause: a `Rect` lies in memory as C lends it, with any numbers.
fn weighed(w: u64, side: i32) -> u64
    requires w_le_largest_weight { w ≤ largest_weight }
    requires side { Side side }
    ensures { result ≡ w * lifted side }
{
    w * (side + MAX_SIDE) as u64
}

// The sums with one more point.
fn added(s: Sums, w: u64, p: Rect) -> Sums
    requires roomy { Roomy s }
    requires w_le_largest_weight { w ≤ largest_weight }
    requires held { Held p }
    ensures { result ≡ added_to s w p }
{
    let r = p.resistance;
    let x = p.reactance;
    Sums {
        rlow: s.rlow + weighed(w, r.low),
        rhigh: s.rhigh + weighed(w, r.high),
        xlow: s.xlow + weighed(w, x.low),
        xhigh: s.xhigh + weighed(w, x.high),
    }
}

// One pass over the first points of a curve, one for each weight. It ends at a point whose sides are not in range and in order.
// The points go by index: with zip over points and weights a call at degree 8 took a quarter longer (a trial).
fn sums_from(c: Curve, weights: &[u64]) -> Option<Sums>
    requires few { length weights.now ≤ highest + 1 }
    requires light { (k : ℕ) → k < length weights.now → get_or weights.now k 0 ≤ largest_weight }
    ensures accepted { is_some result ≡ good_below (length weights.now) (point c) }
    ensures sums { IfSome result (Summed (λ k. get_or weights.now k 0) (point c) (length weights.now)) }
{
    let mut sums = Sums::default();
    for (k, w) in weights.iter().enumerate() {
        let p = c.points[k];
        if !is_good(p) {
            return None;
        }
        sums = added(sums, *w, p);
    }
    Some(sums)
}

// The sums of any curve at any j, or none where the call is refused. Each arm asks for the weights by itself, so that only those of its degree are loaded (docs/DECISIONS.md).
pub fn sums_of(c: Curve, j: u32) -> Option<Sums>
    ensures accepted { is_some result ≡ accepts c j }
    ensures sums { IfSome result (Summed (weight c.degree (sixteenths - j) j) (point c) (c.degree + 1)) }
{
    if j > SIXTEENTHS {
        return None;
    }
    match c.degree {
        1 => sums_from(c, &weights_at(j)[0..2]),
        2 => sums_from(c, &weights_at(j)[2..5]),
        3 => sums_from(c, &weights_at(j)[5..9]),
        4 => sums_from(c, &weights_at(j)[9..14]),
        5 => sums_from(c, &weights_at(j)[14..20]),
        6 => sums_from(c, &weights_at(j)[20..27]),
        7 => sums_from(c, &weights_at(j)[27..35]),
        8 => sums_from(c, &weights_at(j)[35..44]),
        _ => None,
    }
}
