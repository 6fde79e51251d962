// The fitted list of relay settings: the first record of a lent list whose box the curve stays in.
// The call takes any record, any list and any numbers, answers a refusal for bad input, and equals its definition in specs/Settings.antt.
#![tactic(auto)]

ghost use Rattle.std.specs.Prelude.{◌≡◌};
ghost use Rattle.curve.specs.Reason.{refusal_of};
ghost use Rattle.settings.specs.Settings.{list_refusal, boxes_refusal, chosen};
ghost use Rattle.settings.specs.Results.{as_choice, as_choice_answer};

use curve::{Curve, Reason, Rect, Refusal, ensure};
use search::{check_effort, is_box};

mod inside;
mod query;

use query::Query;

// The longest list.
pub const MAX_SETTINGS: usize = 64;

// A relay setting: the box in which the load must stay, and the setting's number. It lies in memory as C lays it out, in 20 bytes.
#[repr(C)]
#[derive(Clone, Copy)]
pub struct Setting {
    pub limits: Rect,
    pub number: u16,
}

// A record that fits: its index in the list, and its setting number.
#[derive(Clone, Copy, PartialEq, Eq)]
pub struct Fit {
    pub index: u32,
    pub number: u16,
}

// The first record that fits, or none. A refused call has nothing to tell.
// It stays an enum of its own, since `chosen` (specs/Settings.antt) gives one of its three cases.
#[derive(Clone, Copy, PartialEq, Eq)]
pub enum Choice {
    Refused,
    Fits { index: u32, number: u16 },
    NoneFits,
}

// The answer of choose_setting. It stays a refusal beside a choice, since `chosen` (specs/Settings.antt) is an equation with it.
#[derive(Clone, Copy)]
pub struct ChoiceAnswer {
    pub refusal: Refusal,
    pub choice: Choice,
}

impl From<Option<Fit>> for Choice {
    ghost from_gives = { λ found choice. choice ≡ as_choice found };

    fn from(found: Option<Fit>) -> Choice {
        match found {
            Some(Fit { index, number }) => Choice::Fits { index, number },
            None => Choice::NoneFits,
        }
    }
}

impl From<Result<Option<Fit>, Reason>> for ChoiceAnswer {
    ghost from_gives = { λ r a. a ≡ as_choice_answer r };

    fn from(chosen: Result<Option<Fit>, Reason>) -> ChoiceAnswer {
        match chosen {
            Ok(found) => ChoiceAnswer {
                refusal: Refusal::NONE,
                choice: found.into(),
            },
            Err(e) => ChoiceAnswer {
                refusal: e.into(),
                choice: Choice::Refused,
            },
        }
    }
}

// Refusal 16.
#[tactic(auto, unfolding(crate::specs::Settings::list_refusal))]
fn check_length(length: usize) -> Result<(), Reason>
    ensures { refusal_of result ≡ list_refusal length }
{
    ensure(
        (1..=MAX_SETTINGS).contains(&length),
        Reason::ListLength { length },
    )
}

// Refusal 7, at the first record whose box is refused.
fn check_boxes(settings: &[Setting]) -> Result<(), Reason>
    ensures { refusal_of result ≡ boxes_refusal 0 settings.now }
{
    for (at, &s) in settings.iter().enumerate() {
        ensure(is_box(s.limits), Reason::Limits { place: at })?;
    }
    Ok(())
}

// The first record of the list whose walk ends Inside, each walk with this depth and the whole budget; refusals 16, 1 to 3, 7 to 9 and 17.
pub fn try_choose_setting(
    c: Curve,
    settings: &[Setting],
    depth: u32,
    budget: u32,
) -> Result<Option<Fit>, Reason>
    ensures answer { as_choice_answer result ≡ chosen c settings.now depth budget }
    ensures kept { settings.exit.now ≡ settings.entry.now }
{
    check_length(settings.len())?;
    let span = curve::try_bounds(c)?;
    check_boxes(settings)?;
    check_effort(c, depth, budget)?;
    let query = Query {
        curve: c,
        span,
        depth,
        budget,
    };
    Ok(query.first_fit(settings))
}

// The same as one record: the refusal's number and place, and the choice.
pub fn choose_setting(c: Curve, settings: &[Setting], depth: u32, budget: u32) -> ChoiceAnswer
    ensures { (result ≡ chosen c settings.now depth budget) × (settings.exit.now ≡ settings.entry.now) }
{
    try_choose_setting(c, settings, depth, budget).into()
}
