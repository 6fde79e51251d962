// Why a call is refused: one case for each number in the papers' list, with the place that it carries.
ghost use Rattle.std.specs.Prelude.{◌≡◌, cond};
ghost use Rattle.curve.specs.Reason.{listed};

use crate::Refusal;

// The papers' refusals in the order of their numbers. A place is that of a rectangle, a byte, a number or a record, or the length that was given or is needed.
#[derive(Clone, Copy, PartialEq, Eq)]
pub enum Reason {
    Degree,
    SideOutOfRange { place: usize },
    LowAboveHigh { place: usize },
    Denominator,
    Numerator,
    HighestDegree,
    Limits { place: usize },
    Depth,
    Budget,
    CardLength { length: usize },
    Malformed { offset: usize },
    BufferTooShort { needed: usize },
    Measurement { place: usize },
    SideBeyondRange { place: usize },
    Sixteenth,
    ListLength { length: usize },
    SumOfSteps,
}

impl Reason {
    // The number and the place are told apart, so that the compiler makes no table of jumps of either: in a call that has only some of the reasons
    // it would put a stop for the others, and the machine code has none (docs/TRUST.md).
    fn number(self) -> u32
        ensures { result ≡ (listed self).number }
    {
        match self {
            Reason::Degree => 1,
            Reason::SideOutOfRange { .. } => 2,
            Reason::LowAboveHigh { .. } => 3,
            Reason::Denominator => 4,
            Reason::Numerator => 5,
            Reason::HighestDegree => 6,
            Reason::Limits { .. } => 7,
            Reason::Depth => 8,
            Reason::Budget => 9,
            Reason::CardLength { .. } => 10,
            Reason::Malformed { .. } => 11,
            Reason::BufferTooShort { .. } => 12,
            Reason::Measurement { .. } => 13,
            Reason::SideBeyondRange { .. } => 14,
            Reason::Sixteenth => 15,
            Reason::ListLength { .. } => 16,
            Reason::SumOfSteps => 17,
        }
    }

    fn place(self) -> usize
        ensures { result ≡ (listed self).place }
    {
        match self {
            Reason::SideOutOfRange { place }
            | Reason::LowAboveHigh { place }
            | Reason::Limits { place }
            | Reason::Measurement { place }
            | Reason::SideBeyondRange { place } => place,
            Reason::CardLength { length } | Reason::ListLength { length } => length,
            Reason::Malformed { offset } => offset,
            Reason::BufferTooShort { needed } => needed,
            _ => 0,
        }
    }
}

impl From<Reason> for Refusal {
    ghost from_gives = { λ e r. r ≡ listed e };

    fn from(e: Reason) -> Refusal {
        Refusal {
            number: e.number(),
            place: e.place(),
        }
    }
}

// An error of any type unless the test holds.
pub fn ensure<E: Copy>(ok: bool, otherwise: E) -> Result<(), E>
    ensures { result ≡ cond ok (Ok tt) (Err otherwise) }
{
    if ok { Ok(()) } else { Err(otherwise) }
}
