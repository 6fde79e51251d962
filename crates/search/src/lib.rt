// The walk over a box: whether every load of a curve lies in the box, found by cutting the curve into pieces. The box is called `limits`; its low sides lie inside it, its high sides outside.
// The call takes any record and any numbers, answers a refusal for bad input, and equals its definition in specs/Search.antt.
#![tactic(auto)]

ghost use Rattle.std.specs.Prelude.{◌≡◌};
ghost use Rattle.curve.specs.Reason.{refusal_of};
ghost use Rattle.search.specs.Search.{effort_refusal, searched};
ghost use Rattle.search.specs.Results.{as_search_answer};

use curve::{Curve, Reason, Rect, Refusal, check_curve, check_sum, ensure, is_from_one_to};

mod boxes;
mod piece;
mod verdicts;
mod visit;
mod walk;

// How a span lies to a box, and the check of a box by itself.
pub use boxes::{apart_from, in_box, is_box};

// The pieces of a walk, and what becomes of each.
pub use piece::Piece;
pub use visit::{Task, Visit};

// The largest depth limit.
pub const MAX_DEPTH: u32 = 12;

// The largest budget: as many pieces as a walk of the largest depth can have.
pub const MAX_BUDGET: u32 = 8191;

// How a walk ended, with the number of pieces looked at; Outside and Undecided name a piece by its depth and index. A refused walk has nothing to tell.
// Refused stays a case of it, since `searched` (specs/Search.antt) gives a refused walk this verdict.
#[derive(Clone, Copy, PartialEq, Eq)]
pub enum Verdict {
    Refused,
    Inside(u32),
    Outside { depth: u32, index: u32, count: u32 },
    Spent(u32),
    Undecided { depth: u32, index: u32, count: u32 },
}

// The answer of search. It stays a refusal beside a verdict, since `searched` (specs/Search.antt) is an equation with it.
#[derive(Clone, Copy)]
pub struct SearchAnswer {
    pub refusal: Refusal,
    pub verdict: Verdict,
}

impl From<Result<Verdict, Reason>> for SearchAnswer {
    ghost from_gives = { λ r a. a ≡ as_search_answer r };

    fn from(walked: Result<Verdict, Reason>) -> SearchAnswer {
        match walked {
            Ok(verdict) => SearchAnswer {
                refusal: Refusal::NONE,
                verdict,
            },
            Err(e) => SearchAnswer {
                refusal: e.into(),
                verdict: Verdict::Refused,
            },
        }
    }
}

// Refusals 8, 9 and 17, the last for the sum of steps of the deepest pieces. Depth and budget stay two numbers, as document 01's call takes them.
#[tactic(auto, unfolding(crate::specs::Search::effort_refusal))]
pub fn check_effort(c: Curve, depth: u32, budget: u32) -> Result<(), Reason>
    ensures { refusal_of result ≡ effort_refusal c depth budget }
{
    ensure(depth <= MAX_DEPTH, Reason::Depth)?;
    ensure(is_from_one_to(budget, MAX_BUDGET), Reason::Budget)?;
    check_sum(u64::from(c.sum) + u64::from(depth) * u64::from(c.degree))?;
    Ok(())
}

// Whether the curve stays in the box, looking at no more than budget pieces, none deeper than depth; refusals 1 to 3, 7 to 9 and 17.
pub fn try_search(c: Curve, limits: Rect, depth: u32, budget: u32) -> Result<Verdict, Reason>
    ensures { as_search_answer result ≡ searched c limits depth budget }
{
    check_curve(c)?;
    ensure(is_box(limits), Reason::Limits { place: 0 })?;
    check_effort(c, depth, budget)?;
    let whole = Piece {
        curve: c,
        depth: 0,
        index: 0,
        below: depth,
    };
    let task = Task { limits, budget };
    Ok(task.walk(&whole, Verdict::Inside(0)))
}

// The same as one record: the refusal's number and place, and the verdict.
pub fn search(c: Curve, limits: Rect, depth: u32, budget: u32) -> SearchAnswer
    ensures { result ≡ searched c limits depth budget }
{
    try_search(c, limits, depth, budget).into()
}
