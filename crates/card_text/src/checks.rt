// The lengths of a card and of its lines, and the refusal at a line's end.
ghost use Rattle.std.specs.Prelude.{◌≡◌, ◌<◌, length};
ghost use Rattle.curve.specs.Reason.{refusal_of};
ghost use Rattle.card_text.specs.Card.{card_length};
ghost use Rattle.card_text.specs.Reading.{line_end_refusal};

use columns::NEWLINE;
use curve::{Reason, ensure};

// The bytes of the first line, and of each other line.
pub const HEADER_LENGTH: usize = 11;

pub const ROW_LENGTH: usize = 41;

// The bytes of a card of this degree. A curve's length in numbers (crate foreign) has other constants.
pub fn card_length(degree: u32) -> usize
    ensures { result ≡ card_length degree }
{
    HEADER_LENGTH + ROW_LENGTH * (degree as usize + 1)
}

// 11 where the byte at an offset does not end a line. The offset is the refusal's place.
#[tactic(auto, unfolding(crate::specs::Reading::line_end_refusal))]
pub fn check_line_end(bytes: &[u8], at: usize) -> Result<(), Reason>
    requires { at < length bytes.now }
    ensures { refusal_of result ≡ line_end_refusal bytes.now at }
{
    ensure(bytes[at] == NEWLINE, Reason::Malformed { offset: at })
}
