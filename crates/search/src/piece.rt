// A piece of a curve that is cut into halves, with its place: what a walk looks at.
ghost use Rattle.std.specs.Prelude.{◌≡◌, ◌+◌, ◌≤◌, ◌<◌, ◌^◌};
ghost use Rattle.curve.specs.Limits.{max_sum};
ghost use Rattle.curve.specs.Refusals.{curve_refusal};
ghost use Rattle.search.specs.Limits.{max_depth};
ghost use Rattle.search.specs.Search.{deepest_sum};

use curve::{Curve, Rect};

// A piece of an accepted curve: its depth and index, which name it, and the depths that are left below it, for whose cuts its sum of steps has room.
#[derive(Clone, Copy)]
pub struct Piece {
    pub curve: Curve,
    pub depth: u32,
    pub index: u32,
    pub below: u32,
    pub ghost accepted: { (curve_refusal curve).number ≡ 0 },
    pub ghost room: { deepest_sum curve below ≤ max_sum },
    pub ghost limited: { depth + below ≤ max_depth },
    pub ghost numbered: { index < 2 ^ depth },
}

impl Piece {
    ghost use Rattle.std.specs.Prelude.{MatchOption};
    ghost use Rattle.curve.specs.Calls.{bounded};
    ghost use Rattle.search.specs.Piece.{AreHalves};

    // The least rectangle that holds its control points. A piece is accepted, so neither this nor a cut is ever refused; `unwrap` would leave a stop in the machine code, which has none (docs/TRUST.md).
    // Not in line, so that a copy of the curve takes stack once and not at each depth of a walk.
    #[inline(never)]
    pub fn span(&self) -> Rect
        ensures { result ≡ (bounded self.now.curve).rect }
    {
        curve::try_bounds(self.curve).unwrap_or(curve::zero_rect())
    }

    // Its halves, the left one first, unless it lies at the depth limit. Not in line, so that the cut's table takes stack once and not at each depth of a walk.
    #[inline(never)]
    pub fn halves(&self) -> Option<(Piece, Piece)>
        ensures { MatchOption result (self.now.below ≡ 0) (λ halves. AreHalves self.now halves.0 halves.1) }
    {
        let below = self.below.checked_sub(1)?;
        let Ok(pieces) = curve::try_subdivide(self.curve, 1, 2) else {
            return None;
        };
        let (left, right) = pieces.value;
        let depth = self.depth + 1;
        let index = self.index * 2;
        let first = Piece {
            curve: left,
            depth,
            index,
            below,
        };
        let second = Piece {
            curve: right,
            depth,
            index: index + 1,
            below,
        };
        Some((first, second))
    }
}
