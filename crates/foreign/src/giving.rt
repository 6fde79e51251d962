// What each call within gives, stored in what a caller lends for it; a call that is refused, or that has too little room, stores nothing.
ghost use Rattle.std.specs.Prelude.{◌≡◌};
ghost use Rattle.curve.specs.Calls.{subdivided, elevated, bounded};
ghost use Rattle.curve.specs.Reason.{refusal_of};
ghost use Rattle.curve.specs.Results.{as_evaluation};
ghost use Rattle.card_text.specs.Reading.{read_card};
ghost use Rattle.search.specs.Search.{searched};
ghost use Rattle.settings.specs.Settings.{chosen};
ghost use Rattle.bridge.specs.Bridge.{enclosed};
ghost use Rattle.interface.specs.Answer.{answer_of};
ghost use Rattle.foreign.specs.Calls.{
  GivesEvaluation,
  GivesSubdivision,
  GivesElevation,
  GivesBounds,
  GivesSearch,
  GivesChoice,
  GivesFound,
  GivesCard,
};

use crate::answers::check_room;
use crate::results::{
    RECT_LENGTH, choice_numbers, curve_length, give, give_curve, ohm_numbers, sides, store,
    store_curve, verdict_numbers,
};
use bridge::{Measurement, try_enclose};
use card_text::try_read_card;
use curve::{Curve, Reading, Reason, Rect, try_bounds, try_elevate, try_subdivide};
use search::try_search;
use settings::{Setting, try_choose_setting};

// The numbers that C takes for what a measurement encloses.
const NO_CARRIER: u32 = 1;

const RECTANGLE: u32 = 2;

// A reading's load, its ohms and its flag, lent as three, as the exports' signatures in C have them. Two calls give a reading, so they are made outside.
pub fn give_reading(
    reading: Result<Reading, Reason>,
    load: &mut [i32],
    ohms: &mut [f32],
    exact: &mut u32,
) -> Result<(), Reason>
    ensures { GivesEvaluation (as_evaluation reading) load.old ohms.old exact.old (answer_of (refusal_of result)) load.new ohms.new exact.new }
{
    let given = reading?;
    check_room(RECT_LENGTH, load.len())?;
    check_room(RECT_LENGTH, ohms.len())?;
    store(load, 0, &sides(given.load));
    store(ohms, 0, &ohm_numbers(given.ohms));
    *exact = u32::from(given.exact);
    Ok(())
}

// Both pieces of a curve, and their flag.
pub fn give_pieces(
    curve: Curve,
    num: u32,
    den: u32,
    left: &mut [i32],
    right: &mut [i32],
    exact: &mut u32,
) -> Result<(), Reason>
    ensures { GivesSubdivision (subdivided curve num den) left.old right.old exact.old (answer_of (refusal_of result)) left.new right.new exact.new }
{
    let given = try_subdivide(curve, num, den)?;
    let (start, rest) = given.value;
    check_room(curve_length(start.degree), left.len())?;
    check_room(curve_length(rest.degree), right.len())?;
    store_curve(left, start);
    store_curve(right, rest);
    *exact = u32::from(given.exact);
    Ok(())
}

// The curve with its degree raised by one, and its flag.
pub fn give_elevation(curve: Curve, raised: &mut [i32], exact: &mut u32) -> Result<(), Reason>
    ensures { GivesElevation (elevated curve) raised.old exact.old (answer_of (refusal_of result)) raised.new exact.new }
{
    let given = try_elevate(curve)?;
    give_curve(raised, given.value)?;
    *exact = u32::from(given.exact);
    Ok(())
}

// A curve's bounds.
pub fn give_bounds(curve: Curve, rect: &mut [i32]) -> Result<(), Reason>
    ensures { GivesBounds (bounded curve) rect.old (answer_of (refusal_of result)) rect.new }
{
    give(rect, &sides(try_bounds(curve)?))
}

// A verdict's numbers.
pub fn give_verdict(
    curve: Curve,
    limits: Rect,
    depth: u32,
    budget: u32,
    verdict: &mut [u32],
) -> Result<(), Reason>
    ensures { GivesSearch (searched curve limits depth budget) verdict.old (answer_of (refusal_of result)) verdict.new }
{
    give(
        verdict,
        &verdict_numbers(try_search(curve, limits, depth, budget)?),
    )
}

// A choice's numbers.
pub fn give_choice(
    curve: Curve,
    settings: &[Setting],
    depth: u32,
    budget: u32,
    choice: &mut [u32],
) -> Result<(), Reason>
    ensures given { GivesChoice (chosen curve settings.now depth budget) choice.old (answer_of (refusal_of result)) choice.new }
    ensures kept { settings.exit.now ≡ settings.entry.now }
{
    give(
        choice,
        &choice_numbers(try_choose_setting(curve, settings, depth, budget)?),
    )
}

// The rectangle that a measurement encloses, if there is one, and which of the two was found.
pub fn give_found(measurement: Measurement, rect: &mut [i32], found: &mut u32) -> Result<(), Reason>
    ensures { GivesFound (enclosed measurement) rect.old found.old (answer_of (refusal_of result)) rect.new found.new }
{
    *found = match try_enclose(measurement)? {
        None => NO_CARRIER,
        Some(p) => {
            give(rect, &sides(p))?;
            RECTANGLE
        }
    };
    Ok(())
}

// The curve on a card.
pub fn give_card(card: &[u8], curve: &mut [i32]) -> Result<(), Reason>
    ensures { GivesCard (read_card card.now) curve.old (answer_of (refusal_of result)) curve.new }
{
    give_curve(curve, try_read_card(card)?)
}
