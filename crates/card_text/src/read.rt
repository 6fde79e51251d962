// Reading a card's lines: each column as a number, or the first refusal.
// The bytes and an offset, which is the place of a refusal, go as two arguments, as `columns::read_column` takes them: with a struct of both each clause would name its fields.
ghost use Rattle.std.specs.Prelude.{◌≡◌, ◌+◌, ◌≤◌, IfOk, length};
ghost use Rattle.curve.specs.Limits.{max_degree};
ghost use Rattle.curve.specs.Curve.{points_of};
ghost use Rattle.curve.specs.Refusals.{degree_refusal};
ghost use Rattle.curve.specs.Reason.{refusal_of};
ghost use Rattle.card_text.specs.Card.{card_length, row_at};
ghost use Rattle.card_text.specs.Reading.{
  number_at,
  degree_of,
  interval_at,
  rect_at,
  column_refusal,
  ends_refusal,
  row_refusal,
  rows_refusal,
  header_refusal,
};
ghost use Rattle.card_text.specs.Inner.{limited, limited_ends, limited_rect};

use crate::checks::{HEADER_LENGTH, ROW_LENGTH, card_length, check_line_end};
use columns::read_column;
use curve::{Interval, MAX_SIDE, PLACES, Reason, Rect, check_degree, ensure, zero_rect};

// The number in the column at an offset; refusal 11.
#[tactic(auto, unfolding(crate::specs::Reading::column_refusal))]
fn read_number(bytes: &[u8], at: usize) -> Result<i64, Reason>
    ensures refusal { refusal_of result ≡ column_refusal bytes.now at }
    ensures number { IfOk result (λ z. z ≡ number_at bytes.now at) }
{
    read_column(bytes, at).ok_or(Reason::Malformed { offset: at })
}

// A number as a degree; refusal 1. One that no u32 holds is taken as 0, as `degree_of` (specs/Reading.antt) has it, so that one check refuses both.
fn degree_of(number: i64) -> Result<u32, Reason>
    ensures refusal { refusal_of result ≡ degree_refusal (degree_of number) }
    ensures degree { IfOk result (λ n. n ≡ degree_of number) }
{
    let degree = u32::try_from(number).unwrap_or(0);
    check_degree(degree)?;
    Ok(degree)
}

// The degree on the first line, with the refusals that come before the other lines.
#[tactic(auto, using(curve::proofs::Listed::first_is, curve::proofs::Listed::goes_on), unfolding(crate::specs::Reading::header_refusal, crate::specs::Reading::short_refusal, crate::specs::Reading::length_refusal, crate::specs::Reading::decoded))]
pub fn read_header(bytes: &[u8]) -> Result<u32, Reason>
    ensures refusal { refusal_of result ≡ header_refusal bytes.now }
    ensures degree { IfOk result (λ n. n ≡ degree_of (number_at bytes.now 0)) }
{
    let length = bytes.len();
    ensure(HEADER_LENGTH <= length, Reason::CardLength { length })?;
    let number = read_number(bytes, 0)?;
    check_line_end(bytes, 10)?;
    let degree = degree_of(number)?;
    ensure(length == card_length(degree), Reason::CardLength { length })?;
    Ok(degree)
}

// The side in the column at an offset. One too large for a side is taken as the first number above them: refusal 2 comes after 11 in every line (`card_refusal`), so it is not answered here.
fn read_side(bytes: &[u8], at: usize) -> Result<i32, Reason>
    ensures refusal { refusal_of result ≡ column_refusal bytes.now at }
    ensures side { IfOk result (λ z. z ≡ limited (number_at bytes.now at)) }
{
    let number = read_number(bytes, at)?;
    Ok(i32::try_from(number).unwrap_or(MAX_SIDE + 1))
}

// The two columns of an interval that begin at an offset.
#[tactic(auto, using(curve::proofs::Listed::first_is, curve::proofs::Listed::goes_on), unfolding(crate::specs::Reading::ends_refusal, crate::specs::Reading::interval_at, crate::specs::Inner::limited_ends))]
fn read_interval(bytes: &[u8], at: usize) -> Result<Interval, Reason>
    requires { at + 20 ≤ length bytes.now }
    ensures refusal { refusal_of result ≡ ends_refusal bytes.now at }
    ensures interval { IfOk result (λ i. i ≡ limited_ends (interval_at bytes.now at)) }
{
    let low = read_side(bytes, at)?;
    let high = read_side(bytes, at + 10)?;
    Ok(Interval { low, high })
}

// The line of a rectangle that begins at an offset.
#[tactic(auto, using(curve::proofs::Listed::first_is, curve::proofs::Listed::goes_on), unfolding(crate::specs::Reading::row_refusal, crate::specs::Reading::rect_at, crate::specs::Inner::limited_rect))]
fn read_row(bytes: &[u8], at: usize) -> Result<Rect, Reason>
    requires { at + 41 ≤ length bytes.now }
    ensures refusal { refusal_of result ≡ row_refusal bytes.now at }
    ensures rect { IfOk result (λ p. p ≡ limited_rect (rect_at bytes.now at)) }
{
    let resistance = read_interval(bytes, at)?;
    let reactance = read_interval(bytes, at + 20)?;
    check_line_end(bytes, at + 40)?;
    Ok(Rect {
        resistance,
        reactance,
    })
}

// The lines of rectangles 0 to n.
pub fn read_rows(bytes: &[u8], degree: u32) -> Result<[Rect; PLACES], Reason>
    requires degree_le_max_degree { degree ≤ max_degree }
    requires bytes_len { length bytes.now ≡ card_length degree }
    ensures refusal { refusal_of result ≡ rows_refusal bytes.now (degree + 1) }
    ensures points { IfOk result (λ points. points ≡ points_of degree (λ k. limited_rect (rect_at bytes.now (row_at k)))) }
{
    let mut points = [zero_rect(); PLACES];
    for k in 0..=degree as usize {
        points[k] = read_row(bytes, HEADER_LENGTH + ROW_LENGTH * k)?;
    }
    Ok(points)
}
