// What the program `card` prints: the bounds and the load at 1/2 of a card's curve, or a card's refusal.
#![tactic(auto)]

ghost use Rattle.std.specs.Prelude.{◌≡◌, IfOk, length, take};
ghost use Rattle.curve.specs.Calls.{bounded, evaluated};
ghost use Rattle.curve.specs.Reason.{refusal_of};
ghost use Rattle.card_text.specs.Reading.{read_card};
ghost use Rattle.card_report.specs.Report.{shown, reported};

use card_text::{ROW_LENGTH, sides, try_read_card};
use columns::put_line;
use curve::{Reason, Rect, Refusal, try_bounds, try_evaluate};

// The most bytes that are taken as a card.
pub const MOST_BYTES: usize = 4096;

// The bytes of a refusal's line, and of two rectangles' lines, which are the longest report.
const REFUSAL_LENGTH: usize = 21;

pub const MOST_SHOWN: usize = 82;

// The bounds and the load at 1/2 of a card's curve.
fn bounds_and_load(card: &[u8]) -> Result<(Rect, Rect), Reason>
    ensures refusal { refusal_of result ≡ (read_card card.now).refusal }
    ensures rects { IfOk result (λ rects. rects ≡ ((bounded (read_card card.now).curve).rect, (evaluated (read_card card.now).curve 1 2).load)) }
{
    let c = try_read_card(card)?;
    let bounds = try_bounds(c)?;
    let reading = try_evaluate(c, 1, 2)?;
    Ok((bounds, reading.load))
}

// Writes what is printed for an input to the front of a buffer, which keeps its later bytes, and answers its length.
pub fn report(input: &[u8], out: &mut [u8; MOST_SHOWN]) -> usize
    ensures { (result ≡ length (shown input.now)) × (out.new ≡ reported input.now out.old) }
{
    match bounds_and_load(&input[..MOST_BYTES.min(input.len())]) {
        Ok((bounds, load)) => {
            put_line(out, 0, &sides(bounds));
            put_line(out, ROW_LENGTH, &sides(load));
            MOST_SHOWN
        }
        Err(reason) => {
            // A place is at most MOST_BYTES, so that `i64::try_from` would have no error to hand on.
            let refusal = Refusal::from(reason);
            put_line(out, 0, &[i64::from(refusal.number), refusal.place as i64]);
            REFUSAL_LENGTH
        }
    }
}
