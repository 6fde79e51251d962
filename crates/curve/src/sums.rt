// The sum of steps that travels with a curve: what a call makes of it, and refusal 17.
ghost use Rattle.std.specs.Prelude.{◌≡◌, ◌+◌, IfOk};
ghost use Rattle.curve.specs.Refusals.{sum_refusal};
ghost use Rattle.curve.specs.Reason.{refusal_of};

use crate::{MAX_SUM, Reason, ensure};

// Refusal 17: the sum in its sixteen bits, if it has room there. The sum is one that a call would reach, so it may be any number.
#[tactic(auto, unfolding(crate::specs::Refusals::sum_refusal))]
pub fn check_sum(sum: u64) -> Result<u16, Reason>
    ensures refusal { refusal_of result ≡ sum_refusal sum }
    ensures kept { IfOk result (λ kept. kept ≡ sum) }
{
    ensure(sum <= MAX_SUM, Reason::SumOfSteps)?;
    Ok(sum as u16)
}

// The sum of both pieces of a curve with this sum and degree, whatever the degree is.
pub fn piece_sum(sum: u16, degree: u32) -> u64
    ensures { result ≡ sum + degree }
{
    u64::from(sum) + u64::from(degree)
}

// The sum of the elevated curve.
pub fn elevated_sum(sum: u16) -> u64
    ensures { result ≡ sum + 1 }
{
    u64::from(sum) + 1
}
