// The curve card: a curve as text in columns ten bytes wide, read from lent bytes and written into a lent buffer.
// Both calls take anything, answer a refusal for bad input, and equal their definitions in specs/Reading.antt and specs/Writing.antt.
#![tactic(auto)]

ghost use Rattle.std.specs.Prelude.{◌≡◌};
ghost use Rattle.card_text.specs.Reading.{read_card};
ghost use Rattle.card_text.specs.Writing.{write_card, bytes_after};
ghost use Rattle.card_text.specs.Results.{as_card_read, as_card_written};

mod checks;
mod read;
mod write;

use checks::card_length;
use columns::put_line;
use curve::{Curve, Reason, Refusal, check_curve, ensure, zero_curve};
use read::{read_header, read_rows};
use write::write_rows;

// A rectangle's numbers as its line shows them, and the bytes of the line.
pub use checks::ROW_LENGTH;
pub use write::sides;

// The answer of read_card. It stays a record, since `read_card` in specs/ says number, place and curve of a refusal.
#[derive(Clone, Copy)]
pub struct CardRead {
    pub refusal: Refusal,
    pub curve: Curve,
}

// The answer of write_card. It stays a record, since `write_card` (specs/Writing.antt) is an equation with it.
#[derive(Clone, Copy)]
pub struct CardWritten {
    pub refusal: Refusal,
    pub length: usize,
}

impl From<Result<Curve, Reason>> for CardRead {
    ghost from_gives = { λ read answer. answer ≡ as_card_read read };

    fn from(read: Result<Curve, Reason>) -> CardRead {
        match read {
            Ok(curve) => CardRead {
                refusal: Refusal::NONE,
                curve,
            },
            Err(reason) => CardRead {
                refusal: Refusal::from(reason),
                curve: zero_curve(),
            },
        }
    }
}

impl From<Result<usize, Reason>> for CardWritten {
    ghost from_gives = { λ written answer. answer ≡ as_card_written written };

    fn from(written: Result<usize, Reason>) -> CardWritten {
        match written {
            Ok(length) => CardWritten {
                refusal: Refusal::NONE,
                length,
            },
            Err(reason) => CardWritten {
                refusal: Refusal::from(reason),
                length: 0,
            },
        }
    }
}

// The curve on a card; refusals 10, 11, 1, 2 and 3.
pub fn try_read_card(bytes: &[u8]) -> Result<Curve, Reason>
    ensures { as_card_read result ≡ read_card bytes.now }
{
    let degree = read_header(bytes)?;
    let points = read_rows(bytes, degree)?;
    let curve = Curve {
        degree,
        sum: 0,
        points,
    };
    check_curve(curve)?;
    Ok(curve)
}

// The same, with a refusal by its number and place beside the zero curve.
pub fn read_card(bytes: &[u8]) -> CardRead
    ensures { result ≡ read_card bytes.now }
{
    CardRead::from(try_read_card(bytes))
}

// Writes a curve's card to the front of a buffer, and answers its length; refusals 1, 2, 3 and 12.
pub fn try_write_card(c: Curve, out: &mut [u8]) -> Result<usize, Reason>
    ensures answer { as_card_written result ≡ write_card c out.old }
    ensures bytes { out.new ≡ bytes_after c out.old }
{
    check_curve(c)?;
    let needed = card_length(c.degree);
    ensure(needed <= out.len(), Reason::BufferTooShort { needed })?;
    put_line(out, 0, &[i64::from(c.degree)]);
    write_rows(out, c);
    Ok(needed)
}

// The same, with a refusal by its number and place beside the length 0.
pub fn write_card(c: Curve, out: &mut [u8]) -> CardWritten
    ensures { (result ≡ write_card c out.old) × (out.new ≡ bytes_after c out.old) }
{
    CardWritten::from(try_write_card(c, out))
}
