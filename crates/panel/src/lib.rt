// The panel call: the front-panel program, written in C, gets the load of a card's curve as sixteen bytes.
// It takes anything, answers a refusal's number for bad input, and equals its definitions in specs/Panel.antt.
#![tactic(auto)]

ghost use Rattle.std.specs.Prelude.{◌≡◌, IfOk, length};
ghost use Rattle.curve.specs.Reason.{refusal_of};
ghost use Rattle.panel.specs.Panel.{panel_refusal, panel_load, panel_bytes};

mod side_bytes;

use card_text::try_read_card;
use curve::{Reason, Rect, Refusal, ensure, try_evaluate};
use side_bytes::put_rect;

// The bytes of a load: four sides of four bytes.
const LOAD_LENGTH: usize = 16;

// The load at num/den of a card's curve, where a buffer of this size has room for its bytes.
fn load_at(card: &[u8], num: u32, den: u32, size: usize) -> Result<Rect, Reason>
    ensures refusal { refusal_of result ≡ panel_refusal card.now num den size }
    ensures load { IfOk result (λ load. load ≡ panel_load card.now num den) }
{
    let c = try_read_card(card)?;
    let reading = try_evaluate(c, num, den)?;
    ensure(
        LOAD_LENGTH <= size,
        Reason::BufferTooShort {
            needed: LOAD_LENGTH,
        },
    )?;
    Ok(reading.load)
}

// Writes the load at num/den of a card's curve to the front of a buffer; refusals 10, 11, 1 to 5 and 12. C takes a number, 0 or the refusal's. Its prototype is in include/jusqani.h.
#[unsafe(no_mangle)]
pub extern "C" fn jusqani_panel_v2(card: &[u8], num: u32, den: u32, out: &mut [u8]) -> u32
    ensures { (result ≡ (panel_refusal card.now num den (length out.old)).number) × (out.new ≡ panel_bytes card.now num den out.old) }
{
    match load_at(card, num, den, out.len()) {
        Ok(load) => {
            put_rect(&mut out[..LOAD_LENGTH], load);
            0
        }
        Err(reason) => Refusal::from(reason).number,
    }
}
