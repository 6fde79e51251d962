// Whether a walk ends Inside, told as soon as it is known: a piece that is apart, noted or beyond the budget ends this walk.
ghost use Rattle.std.specs.Prelude.{◌≡◌, ◌≤◌};
ghost use Rattle.search.specs.declared.Verdict.TheVariants.{Inside};
ghost use Rattle.search.specs.Walk.{walked};
ghost use Rattle.search.specs.Inner.{count_inside};

use search::{Piece, Task, Verdict, Visit};

// The number of pieces looked at once this one is walked, with `before` pieces looked at before it, all in the box; none as soon as the walk cannot end Inside.
pub fn inside_count(task: Task, piece: &Piece, before: u32) -> Option<u32>
    requires { before ≤ task.budget }
    ensures { result ≡ count_inside (walked task.limits task.budget piece.now.below piece.now.curve piece.now.depth piece.now.index (Inside before)) }
{
    match task.visit(piece, Verdict::Inside(before)) {
        Visit::Contained => Some(before + 1),
        Visit::Across => {
            let (left, right) = piece.halves()?;
            let half = inside_count(task, &left, before + 1)?;
            inside_count(task, &right, half)
        }
        Visit::Ended | Visit::Exhausted | Visit::Apart => None,
    }
}
