// The refusals of a measurement: 13 for its numbers, 14 for its sides once the spread is applied. Each carries its first place.
ghost use Rattle.std.specs.Prelude.{◌≡◌};
ghost use Rattle.curve.specs.Reason.{refusal_of};
ghost use Rattle.bridge.specs.Bridge.{number_refusal, side_refusal};

use crate::ohms::{is_load, is_spread};
use curve::{Reason, Rect, ends_in_range, ensure};

// 13 for a load's two numbers and its spread.
#[tactic(auto, using(curve::proofs::Listed::listed_first), unfolding(crate::specs::Bridge::number_refusal, crate::specs::Bridge::load_refusal))]
pub fn check_numbers(resistance: f32, reactance: f32, spread: f32) -> Result<(), Reason>
    ensures { refusal_of result ≡ number_refusal resistance reactance spread }
{
    ensure(is_load(resistance), Reason::Measurement { place: 0 })?;
    ensure(is_load(reactance), Reason::Measurement { place: 1 })?;
    ensure(is_spread(spread), Reason::Measurement { place: 2 })
}

// 14 for a rectangle's sides.
#[tactic(auto, using(curve::proofs::Listed::listed_first), unfolding(crate::specs::Bridge::side_refusal))]
pub fn check_sides(rect: Rect) -> Result<(), Reason>
    ensures { refusal_of result ≡ side_refusal rect }
{
    ensure(
        ends_in_range(rect.resistance),
        Reason::SideBeyondRange { place: 0 },
    )?;
    ensure(
        ends_in_range(rect.reactance),
        Reason::SideBeyondRange { place: 1 },
    )
}
