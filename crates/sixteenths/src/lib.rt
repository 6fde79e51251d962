// The reading at the seventeen places j/16 by the Bernstein sum, taken whole and rounded outward once.
// The call takes any curve and any j, answers a refusal for bad input, and equals its definition in specs/Sixteenths.antt.
#![tactic(auto)]

ghost use Rattle.std.specs.Prelude.{◌≡◌};
ghost use Rattle.curve.specs.Reason.{refusal_of};
ghost use Rattle.curve.specs.Results.{as_evaluation};
ghost use Rattle.sixteenths.specs.Sixteenths.{sixteenths_refusal, evaluated_sixteenths};

mod rounding;
mod sums;
mod weights;

use curve::{Curve, Evaluation, Reading, Reason, check_degree, check_lent, checked_ohms, ensure};
use rounding::rounded_load;
use sums::sums_of;

// The largest j.
pub const SIXTEENTHS: u32 = 16;

// Refusals 1 to 3, and 15 for a j above 16. Not in line, and lent, so that a reading that is accepted keeps nothing for it.
#[tactic(auto, using(curve::proofs::Listed::listed_first), unfolding(crate::specs::Sixteenths::sixteenths_refusal, crate::specs::Sixteenths::numerator_refusal))]
#[inline(never)]
fn check_sixteenths(c: &Curve, j: u32) -> Result<(), Reason>
    ensures { refusal_of result ≡ sixteenths_refusal c.now j }
{
    check_lent(c)?;
    ensure(j <= SIXTEENTHS, Reason::Sixteenth)
}

// The load at j/16, each side rounded once; refusals 1 to 3 and 15. Only a curve that one pass does not accept is looked at again.
// The degree is tried by itself first, which spares a curve without one the other checks. The last refusal is never given, as is proved: `unreachable!` there would be a stop in the machine code (docs/TRUST.md).
#[tactic(auto, using(crate::proofs::Loads::refused_answer))]
pub fn try_evaluate_sixteenths(c: Curve, j: u32) -> Result<Reading, Reason>
    ensures { as_evaluation result ≡ evaluated_sixteenths c j }
{
    check_degree(c.degree)?;
    let Some(sums) = sums_of(c, j) else {
        check_sixteenths(&c, j)?;
        return Err(Reason::Sixteenth);
    };
    let rounded = rounded_load(sums, c.degree);
    let load = rounded.value;
    Ok(Reading {
        load,
        ohms: checked_ohms(load),
        exact: rounded.exact,
    })
}

// The same as the papers' record, which carries a refusal's number and place beside zeros.
pub fn evaluate_sixteenths(c: Curve, j: u32) -> Evaluation
    ensures { result ≡ evaluated_sixteenths c j }
{
    Evaluation::from(try_evaluate_sixteenths(c, j))
}
