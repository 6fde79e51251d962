// Writing a card's rectangles into a buffer that has room for them.
ghost use Rattle.std.specs.Prelude.{◌≡◌, ◌+◌, ◌≤◌, length};
ghost use Rattle.columns.specs.Line.{placed};
ghost use Rattle.curve.specs.Curve.{point};
ghost use Rattle.curve.specs.Refusals.{Accepted};
ghost use Rattle.curve.specs.Rect.{sides};
ghost use Rattle.card_text.specs.Card.{rows, header_length, card_length};

use crate::checks::{HEADER_LENGTH, ROW_LENGTH};
use columns::put_line;
use curve::{Curve, Rect};

// A rectangle's four sides in their order, for whoever writes its line: columns take 64 bits, and the calls from C 32; one for both would need a law of its type in the clause.
pub fn sides(p: Rect) -> [i64; 4]
    ensures { result ≡ sides p }
{
    [
        i64::from(p.resistance.low),
        i64::from(p.resistance.high),
        i64::from(p.reactance.low),
        i64::from(p.reactance.high),
    ]
}

// Writes the lines of rectangles 0 to n, each at the offset that `put_line` takes.
#[tactic(auto, using(crate::proofs::Fitting::within_places))]
pub fn write_rows(out: &mut [u8], c: Curve)
    requires accepted { Accepted c }
    requires degree_in_bounds { card_length c.degree ≤ length out.old }
    ensures { out.new ≡ placed out.old header_length (rows (c.degree + 1) (point c)) }
{
    for (k, p) in c.points[..c.degree as usize + 1].iter().enumerate() {
        put_line(out, HEADER_LENGTH + ROW_LENGTH * k, &sides(*p));
    }
}
