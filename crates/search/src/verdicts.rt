// The verdict on the pieces walked so far, from piece to piece.
ghost use Rattle.std.specs.Prelude.{◌≡◌, ◌<◌};
ghost use Rattle.search.specs.Limits.{max_budget};
ghost use Rattle.search.specs.Walk.{goes_on, count_of, looked, noted};

use crate::Verdict;

impl Verdict {
    // Whether the walk goes on.
    pub(crate) fn goes_on(self) -> bool
        ensures { result ≡ goes_on self }
    {
        match self {
            Verdict::Inside(_) | Verdict::Undecided { .. } => true,
            _ => false,
        }
    }

    // The number of pieces looked at.
    pub(crate) fn count(self) -> u32
        ensures { result ≡ count_of self }
    {
        match self {
            Verdict::Inside(count)
            | Verdict::Spent(count)
            | Verdict::Outside { count, .. }
            | Verdict::Undecided { count, .. } => count,
            Verdict::Refused => 0,
        }
    }

    // With one more piece looked at, if the walk goes on.
    pub(crate) fn looked(self) -> Verdict
        requires { count_of self < max_budget }
        ensures { result ≡ looked self }
    {
        match self {
            Verdict::Inside(count) => Verdict::Inside(count + 1),
            Verdict::Undecided {
                depth,
                index,
                count,
            } => Verdict::Undecided {
                depth,
                index,
                count: count + 1,
            },
            _ => self,
        }
    }

    // With the piece noted, unless one was noted before it or the walk has ended.
    pub(crate) fn noted(self, depth: u32, index: u32) -> Verdict
        ensures { result ≡ noted depth index self }
    {
        match self {
            Verdict::Inside(count) => Verdict::Undecided {
                depth,
                index,
                count,
            },
            _ => self,
        }
    }
}
