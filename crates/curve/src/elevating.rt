// The control points of the same curve at a degree one higher.
ghost use Rattle.std.specs.Prelude.{◌≡◌, ◌+◌, ◌<◌};
ghost use Rattle.curve.specs.Limits.{max_degree};
ghost use Rattle.curve.specs.Curve.{points_of, point, elevated_point, elevation_exact};
ghost use Rattle.curve.specs.Inner.{Ready};

use crate::affine::{SCALE, Weights, turns_of};
use crate::zeros::zero_rect;
use crate::{Curve, PLACES, Rect, Rounded};

// The first and the last control point stay and leave no remainder, since the absent neighbour has factor 0. The degree's range stays a clause: a curve's record may hold any.
pub fn elevated_points(c: &Curve) -> Rounded<[Rect; PLACES]>
    requires ready { Ready c.now }
    requires degree_lt_max_degree { c.now.degree < max_degree }
    ensures { (result.value ≡ points_of (c.now.degree + 1) (elevated_point c.now.degree (point c.now))) × (result.exact ≡ elevation_exact c.now) }
{
    let d = c.degree + 1;
    // The part of the factor 1, of which the others are multiples.
    let unit = SCALE.div_ceil(u64::from(d)) as u32;
    let turns = turns_of(d);
    let mut points = [zero_rect(); PLACES];
    points[0] = c.points[0];
    let mut exact = true;
    for k in 1..d {
        let at = k as usize;
        let t = d - k;
        let w = Weights::with_part(k, t, t * unit, turns);
        let mapped = w.map_rect(c.points[at - 1], c.points[at]);
        points[at] = mapped.value;
        exact &= mapped.exact;
    }
    points[d as usize] = c.points[c.degree as usize];
    Rounded {
        value: points,
        exact,
    }
}
