// Every public call on numbers and lent slices, for C and Rust to call. Prototypes and the layout of curves are in include/jusqani.h.
// Each takes any slices, and gives what the call within gives (specs/Calls.antt) or refuses; a refused call stores nothing.
// The version of the calls stands in each of their names, so that a program compiled for another one does not link.
#![tactic(auto)]

ghost use Rattle.std.specs.Prelude.{◌≡◌};
ghost use Rattle.curve.specs.Calls.{evaluated, subdivided, elevated, bounded};
ghost use Rattle.sixteenths.specs.Sixteenths.{evaluated_sixteenths};
ghost use Rattle.card_text.specs.Reading.{read_card};
ghost use Rattle.card_text.specs.Writing.{write_card, bytes_after};
ghost use Rattle.search.specs.Search.{searched};
ghost use Rattle.settings.specs.Settings.{chosen};
ghost use Rattle.bridge.specs.Bridge.{enclosed};
ghost use Rattle.interface.specs.Numbers.{rect_at, curve_from, measurement_from};
ghost use Rattle.interface.specs.Answer.{answer_of};
ghost use Rattle.foreign.specs.Calls.{
  GivesEvaluation,
  GivesSubdivision,
  GivesElevation,
  GivesBounds,
  GivesSearch,
  GivesChoice,
  GivesFound,
  GivesCard,
};

mod answers;
mod given;
mod giving;
mod results;

use answers::answer_of;
use given::{curve_from, measurement_from, rect_at};
use giving::{
    give_bounds, give_card, give_choice, give_elevation, give_found, give_pieces, give_reading,
    give_verdict,
};
use settings::Setting;

// The load at num/den, its ohms, and whether nothing was rounded; refusals 1 to 5 and 12.
#[unsafe(no_mangle)]
pub extern "C" fn jusqani_evaluate_v2(
    curve: &[i32],
    num: u32,
    den: u32,
    load: &mut [i32],
    ohms: &mut [f32],
    exact: &mut u32,
) -> u64
    ensures { GivesEvaluation (evaluated (curve_from curve.now) num den) load.old ohms.old exact.old result load.new ohms.new exact.new }
{
    let reading = curve::try_evaluate(curve_from(curve), num, den);
    answer_of(give_reading(reading, load, ohms, exact))
}

// The load at j/16 by the Bernstein sum rounded once, its ohms, and whether nothing was rounded; refusals 1 to 3, 15 and 12.
#[unsafe(no_mangle)]
pub extern "C" fn jusqani_evaluate_sixteenths_v2(
    curve: &[i32],
    j: u32,
    load: &mut [i32],
    ohms: &mut [f32],
    exact: &mut u32,
) -> u64
    ensures { GivesEvaluation (evaluated_sixteenths (curve_from curve.now) j) load.old ohms.old exact.old result load.new ohms.new exact.new }
{
    let reading = sixteenths::try_evaluate_sixteenths(curve_from(curve), j);
    answer_of(give_reading(reading, load, ohms, exact))
}

// The two pieces at num/den, and whether nothing was rounded; refusals 1 to 5, 17 and 12.
#[unsafe(no_mangle)]
pub extern "C" fn jusqani_subdivide_v2(
    curve: &[i32],
    num: u32,
    den: u32,
    left: &mut [i32],
    right: &mut [i32],
    exact: &mut u32,
) -> u64
    ensures { GivesSubdivision (subdivided (curve_from curve.now) num den) left.old right.old exact.old result left.new right.new exact.new }
{
    answer_of(give_pieces(curve_from(curve), num, den, left, right, exact))
}

// The curve with its degree raised by one, and whether nothing was rounded; refusals 1 to 3, 6, 17 and 12.
#[unsafe(no_mangle)]
pub extern "C" fn jusqani_elevate_v2(curve: &[i32], raised: &mut [i32], exact: &mut u32) -> u64
    ensures { GivesElevation (elevated (curve_from curve.now)) raised.old exact.old result raised.new exact.new }
{
    answer_of(give_elevation(curve_from(curve), raised, exact))
}

// The least rectangle that holds the curve's; refusals 1 to 3 and 12.
#[unsafe(no_mangle)]
pub extern "C" fn jusqani_bounds_v2(curve: &[i32], rect: &mut [i32]) -> u64
    ensures { GivesBounds (bounded (curve_from curve.now)) rect.old result rect.new }
{
    answer_of(give_bounds(curve_from(curve), rect))
}

// The verdict on whether the curve stays in a box; refusals 1 to 3, 7 to 9, 17 and 12.
#[unsafe(no_mangle)]
pub extern "C" fn jusqani_search_v2(
    curve: &[i32],
    limits: &[i32],
    depth: u32,
    budget: u32,
    verdict: &mut [u32],
) -> u64
    ensures { GivesSearch (searched (curve_from curve.now) (rect_at limits.now 0) depth budget) verdict.old result verdict.new }
{
    let limits = rect_at(limits, 0);
    answer_of(give_verdict(curve_from(curve), limits, depth, budget, verdict))
}

// The first record of a list of settings whose box the curve stays in; refusals 16, 1 to 3, 7 to 9, 17 and 12. The list is lent as it is, so this call only hands it on.
#[unsafe(no_mangle)]
pub extern "C" fn jusqani_choose_setting_v2(
    curve: &[i32],
    settings: &[Setting],
    depth: u32,
    budget: u32,
    choice: &mut [u32],
) -> u64
    ensures { (GivesChoice (chosen (curve_from curve.now) settings.now depth budget) choice.old result choice.new) × (settings.exit.now ≡ settings.entry.now) }
{
    answer_of(give_choice(curve_from(curve), settings, depth, budget, choice))
}

// The rectangle of whole steps that encloses what the bridge measured, and which of its forms was found; refusals 13, 14 and 12.
#[unsafe(no_mangle)]
pub extern "C" fn jusqani_enclose_v2(ohms: &[f32], rect: &mut [i32], found: &mut u32) -> u64
    ensures { GivesFound (enclosed (measurement_from ohms.now)) rect.old found.old result rect.new found.new }
{
    answer_of(give_found(measurement_from(ohms), rect, found))
}

// The curve on a card; refusals 10, 11, 1 to 3 and 12.
#[unsafe(no_mangle)]
pub extern "C" fn jusqani_read_card_v2(card: &[u8], curve: &mut [i32]) -> u64
    ensures { GivesCard (read_card card.now) curve.old result curve.new }
{
    answer_of(give_card(card, curve))
}

// The card of a curve; refusals 1 to 3 and 12.
#[unsafe(no_mangle)]
pub extern "C" fn jusqani_write_card_v2(curve: &[i32], card: &mut [u8]) -> u64
    ensures { (result ≡ answer_of (write_card (curve_from curve.now) card.old).refusal) × (card.new ≡ bytes_after (curve_from curve.now) card.old) }
{
    let written = card_text::try_write_card(curve_from(curve), card);
    answer_of(written.map(|_| ()))
}
