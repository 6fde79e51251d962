// What is asked of each record of a list: whether the walk over its box ends Inside.
ghost use Rattle.std.specs.Prelude.{◌≡◌};
ghost use Rattle.std.specs.Coded.{Coded-set};
ghost use Rattle.curve.specs.Refusals.{curve_refusal};
ghost use Rattle.curve.specs.Calls.{bounded};
ghost use Rattle.search.specs.Search.{effort_refusal};

use crate::inside::inside_count;
use crate::{Fit, Setting};
use curve::{Curve, Rect};
use search::{Piece, Task, apart_from, in_box};

// A curve and an effort that are not refused. The curve's span is found once and goes along.
#[derive(Clone, Copy)]
pub struct Query {
    pub curve: Curve,
    pub span: Rect,
    pub depth: u32,
    pub budget: u32,
    pub ghost accepted: { (curve_refusal curve).number ≡ 0 },
    pub ghost spanned: { span ≡ (bounded curve).rect } by { Coded-set span-code span (bounded curve).rect },
    pub ghost limited: { (effort_refusal curve depth budget).number ≡ 0 },
}

impl Query {
    ghost use Rattle.std.specs.Prelude.{true, ◌≤◌, length};
    ghost use Rattle.curve.specs.Refusals.{none};
    ghost use Rattle.search.specs.Box.{is_box};
    ghost use Rattle.search.specs.Search.{ends_inside};
    ghost use Rattle.settings.specs.Limits.{max_settings};
    ghost use Rattle.settings.specs.Settings.{boxes_refusal, fits, first_of};
    ghost use Rattle.settings.specs.Results.{as_choice};

    // Whether the walk over a box ends Inside.
    fn ends_inside(self, limits: Rect) -> bool
        requires { is_box limits ≡ true }
        ensures { result ≡ ends_inside self.curve limits self.depth self.budget }
    {
        let task = Task {
            limits,
            budget: self.budget,
        };
        let whole = Piece {
            curve: self.curve,
            depth: 0,
            index: 0,
            below: self.depth,
        };
        inside_count(task, &whole, 0).is_some()
    }

    // Whether a record's walk ends Inside. The first look at the whole curve, whose span is known, often tells.
    #[tactic(auto, unfolding(crate::specs::Settings::fits))]
    fn fits(self, s: Setting) -> bool
        requires { is_box s.limits ≡ true }
        ensures { result ≡ fits self.curve self.depth self.budget s }
    {
        if in_box(self.span, s.limits) {
            return true;
        }
        if apart_from(self.span, s.limits) {
            return false;
        }
        self.ends_inside(s.limits)
    }

    // The first record that fits. The loop hands each record on by value, as document 01 names the form; a list has at most 64, so that its index fits.
    pub fn first_fit(self, settings: &[Setting]) -> Option<Fit>
        requires few { length settings.now ≤ max_settings }
        requires boxed { boxes_refusal 0 settings.now ≡ none }
        ensures { as_choice result ≡ first_of (fits self.curve self.depth self.budget) 0 settings.now }
    {
        for (at, &s) in settings.iter().enumerate() {
            if self.fits(s) {
                return Some(Fit {
                    index: at as u32,
                    number: s.number,
                });
            }
        }
        None
    }
}
