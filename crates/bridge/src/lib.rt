// What the bridge module measures, as rectangles of whole steps: single-precision ohms, with or without a spread.
// The call takes any measurement, answers a refusal for bad numbers, and equals its definition in specs/Bridge.antt.
#![tactic(auto)]

ghost use Rattle.std.specs.Prelude.{◌≡◌, IfOk};
ghost use Rattle.curve.specs.Reason.{refusal_of};
ghost use Rattle.bridge.specs.Bridge.{spread_rect, spread_refusal, enclosed};
ghost use Rattle.bridge.specs.Results.{as_bridge_answer};
ghost use Rattle.bridge.specs.Inner.{with_spread};

use curve::{Reason, Rect, Refusal};

mod checks;
mod ohms;

use checks::{check_numbers, check_sides};
use ohms::{steps_about, widened};

// What the bridge delivers, in ohms: no carrier, a plain load, or a load with a spread.
#[derive(Clone, Copy)]
pub enum Measurement {
    NoCarrier,
    Load {
        resistance: f32,
        reactance: f32,
    },
    LoadWithSpread {
        resistance: f32,
        reactance: f32,
        spread: f32,
    },
}

// What a measurement encloses: a rectangle, or none where there is no carrier. A refused one has nothing to tell.
// The contract of enclose (`enclosed`) and the promise `Reports` speak of it, so it stays beside the result of try_enclose.
#[derive(Clone, Copy)]
pub enum Found {
    Refused,
    NoCarrier,
    Rectangle(Rect),
}

// The answer of enclose. It stays a refusal beside what was found, since `enclosed` (specs/Bridge.antt) is an equation with it.
#[derive(Clone, Copy)]
pub struct BridgeAnswer {
    pub refusal: Refusal,
    pub found: Found,
}

impl From<Result<Option<Rect>, Reason>> for BridgeAnswer {
    ghost from_gives = { λ outcome answer. answer ≡ as_bridge_answer outcome };

    fn from(outcome: Result<Option<Rect>, Reason>) -> BridgeAnswer {
        let (refusal, found) = match outcome {
            Ok(Some(rect)) => (Refusal::NONE, Found::Rectangle(rect)),
            Ok(None) => (Refusal::NONE, Found::NoCarrier),
            Err(e) => (Refusal::from(e), Found::Refused),
        };
        BridgeAnswer { refusal, found }
    }
}

// The rectangle of a load with a spread; refusals 13 and 14.
fn enclose_load(resistance: f32, reactance: f32, spread: f32) -> Result<Rect, Reason>
    ensures refusal { refusal_of result ≡ spread_refusal resistance reactance spread }
    ensures rect { IfOk result (λ rect. rect ≡ spread_rect resistance reactance spread) }
{
    check_numbers(resistance, reactance, spread)?;
    let by = steps_about(spread).high;
    let rect = Rect {
        resistance: widened(steps_about(resistance), by),
        reactance: widened(steps_about(reactance), by),
    };
    check_sides(rect)?;
    Ok(rect)
}

// A plain load as one with a spread of zero, so that `enclose_load` has one caller and is put in line (7 ns a call for 14, docs/DECISIONS.md).
fn with_spread(measurement: Measurement) -> Measurement
    ensures { result ≡ with_spread measurement }
{
    match measurement {
        Measurement::Load {
            resistance,
            reactance,
        } => Measurement::LoadWithSpread {
            resistance,
            reactance,
            spread: 0.0,
        },
        other => other,
    }
}

// The smallest rectangle of whole steps that holds a load, widened by its spread, or none without a carrier; refusals 13 and 14.
pub fn try_enclose(measurement: Measurement) -> Result<Option<Rect>, Reason>
    ensures { as_bridge_answer result ≡ enclosed measurement }
{
    match with_spread(measurement) {
        Measurement::LoadWithSpread {
            resistance,
            reactance,
            spread,
        } => Ok(Some(enclose_load(resistance, reactance, spread)?)),
        _ => Ok(None),
    }
}

// The same as the papers' record, which carries a refusal's number and place.
pub fn enclose(measurement: Measurement) -> BridgeAnswer
    ensures { result ≡ enclosed measurement }
{
    BridgeAnswer::from(try_enclose(measurement))
}
