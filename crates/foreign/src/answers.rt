// Answers in 64 bits, and the refusal of a slice that is too short.
ghost use Rattle.std.specs.Prelude.{◌≡◌, ◌≤◌, OnOk};
ghost use Rattle.curve.specs.Reason.{refusal_of};
ghost use Rattle.interface.specs.Answer.{place_of, answer_of, shorter};

use curve::{Reason, Refusal, ensure};

// 2 to the power 32.
const WORD: u64 = 4294967296;

// A place in 32 bits; a larger one counts as the largest.
fn place_of(place: usize) -> u32
    ensures { result ≡ place_of place }
{
    u32::try_from(place).unwrap_or(u32::MAX)
}

// 0, or the refusal's number in the low 32 bits and its place in the high 32: C takes one number, which the header takes apart.
pub fn answer_of(outcome: Result<(), Reason>) -> u64
    ensures { result ≡ answer_of (refusal_of outcome) }
{
    match outcome {
        Ok(()) => 0,
        Err(reason) => {
            let refusal = Refusal::from(reason);
            u64::from(refusal.number) + WORD * u64::from(place_of(refusal.place))
        }
    }
}

// Refusal 12 where a slice of this size is shorter than what is needed.
pub fn check_room(needed: usize, size: usize) -> Result<(), Reason>
    ensures refusal { refusal_of result ≡ shorter needed size }
    ensures enough { OnOk result (needed ≤ size) }
{
    ensure(needed <= size, Reason::BufferTooShort { needed })
}
