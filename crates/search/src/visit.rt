// What becomes of a piece that is due: the rules of the walk in their order.
ghost use Rattle.std.specs.Prelude.{◌≡◌, ◌≤◌};
ghost use Rattle.search.specs.Limits.{max_budget};

use crate::Verdict;
use crate::boxes::{apart_from, in_box};
use crate::piece::Piece;
use curve::Rect;

// It stays an enum that is matched, since `visit_at` (specs/Walk.antt) answers one and two walks go by it: the walk has ended before the piece, or its budget is spent; or the piece's span lies in the box, is apart from it, or neither.
#[derive(Clone, Copy, PartialEq, Eq)]
pub enum Visit {
    Ended,
    Exhausted,
    Contained,
    Apart,
    Across,
}

// What is the same for all pieces of a walk: the box, and how many pieces may be looked at.
#[derive(Clone, Copy)]
pub struct Task {
    pub limits: Rect,
    pub budget: u32,
    pub ghost budgeted: { budget ≤ max_budget },
}

impl Task {
    ghost use Rattle.search.specs.Walk.{visit_at};

    // The visit of a piece, from the verdict on those before it.
    #[tactic(auto, unfolding(crate::specs::Walk::visit_at))]
    pub fn visit(self, piece: &Piece, before: Verdict) -> Visit
        ensures { result ≡ visit_at self.limits self.budget piece.now.curve before }
    {
        if !before.goes_on() {
            return Visit::Ended;
        }
        if before.count() == self.budget {
            return Visit::Exhausted;
        }
        let span = piece.span();
        if in_box(span, self.limits) {
            return Visit::Contained;
        }
        if apart_from(span, self.limits) {
            return Visit::Apart;
        }
        Visit::Across
    }
}
