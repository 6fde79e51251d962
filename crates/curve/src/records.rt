// Results as the papers' answers: the value with no refusal, or the refusal with zeros and a dark flag.
ghost use Rattle.std.specs.Prelude.{◌≡◌};
ghost use Rattle.curve.specs.Results.{as_evaluation, as_subdivision, as_elevation, as_bounding_rect};

use crate::display::ohms_of;
use crate::{
    BoundingRect, Curve, Elevation, Evaluation, Reading, Reason, Rect, Refusal, Rounded,
    Subdivision, zero_curve, zero_rect,
};

impl From<Result<Reading, Reason>> for Evaluation {
    ghost from_gives = { λ r e. e ≡ as_evaluation r };

    fn from(r: Result<Reading, Reason>) -> Evaluation {
        match r {
            Ok(reading) => Evaluation {
                refusal: Refusal::NONE,
                load: reading.load,
                ohms: reading.ohms,
                exact: reading.exact,
            },
            Err(reason) => Evaluation {
                refusal: Refusal::from(reason),
                load: zero_rect(),
                ohms: ohms_of(zero_rect()),
                exact: false,
            },
        }
    }
}

impl From<Result<Rounded<(Curve, Curve)>, Reason>> for Subdivision {
    ghost from_gives = { λ r s. s ≡ as_subdivision r };

    fn from(r: Result<Rounded<(Curve, Curve)>, Reason>) -> Subdivision {
        match r {
            Ok(pieces) => {
                let (left, right) = pieces.value;
                Subdivision {
                    refusal: Refusal::NONE,
                    left,
                    right,
                    exact: pieces.exact,
                }
            }
            Err(reason) => Subdivision {
                refusal: Refusal::from(reason),
                left: zero_curve(),
                right: zero_curve(),
                exact: false,
            },
        }
    }
}

impl From<Result<Rounded<Curve>, Reason>> for Elevation {
    ghost from_gives = { λ r e. e ≡ as_elevation r };

    fn from(r: Result<Rounded<Curve>, Reason>) -> Elevation {
        match r {
            Ok(raised) => Elevation {
                refusal: Refusal::NONE,
                curve: raised.value,
                exact: raised.exact,
            },
            Err(reason) => Elevation {
                refusal: Refusal::from(reason),
                curve: zero_curve(),
                exact: false,
            },
        }
    }
}

impl From<Result<Rect, Reason>> for BoundingRect {
    ghost from_gives = { λ r b. b ≡ as_bounding_rect r };

    fn from(r: Result<Rect, Reason>) -> BoundingRect {
        match r {
            Ok(rect) => BoundingRect {
                refusal: Refusal::NONE,
                rect,
            },
            Err(reason) => BoundingRect {
                refusal: Refusal::from(reason),
                rect: zero_rect(),
            },
        }
    }
}
