// The walk, from piece to piece.
ghost use Rattle.std.specs.Prelude.{◌≡◌, ◌≤◌};
ghost use Rattle.search.specs.Walk.{count_of, walked};

use crate::Verdict;
use crate::piece::Piece;
use crate::visit::{Task, Visit};

impl Task {
    // The verdict once this piece is walked, after the verdict on the pieces before it.
    pub(crate) fn walk(self, piece: &Piece, before: Verdict) -> Verdict
        requires { count_of before ≤ self.budget }
        ensures { result ≡ walked self.limits self.budget piece.now.below piece.now.curve piece.now.depth piece.now.index before }
    {
        match self.visit(piece, before) {
            Visit::Ended => before,
            Visit::Exhausted => Verdict::Spent(before.count()),
            Visit::Contained => before.looked(),
            Visit::Apart => Verdict::Outside {
                depth: piece.depth,
                index: piece.index,
                count: before.count() + 1,
            },
            Visit::Across => {
                let seen = before.looked();
                match piece.halves() {
                    None => seen.noted(piece.depth, piece.index),
                    Some((left, right)) => {
                        let half = self.walk(&left, seen);
                        self.walk(&right, half)
                    }
                }
            }
        }
    }
}
