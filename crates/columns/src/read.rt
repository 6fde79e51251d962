// Reading a column: the number that ten bytes show, if they are exactly its column.
ghost use Rattle.std.specs.Prelude.{◌≡◌, ◌^◌, ◌<◌, ◌≤◌, length};
ghost use Rattle.columns.specs.Column.{value_after, decode, read_at};

use crate::text::{column_of, fits_column};

// Reads the ten bytes at an offset; none where they are malformed, or fewer. The offset stays beside the bytes, as `read_at` and the promise `ColumnReads` have it.
pub fn read_column(s: &[u8], at: usize) -> Option<i64>
    ensures { result ≡ read_at s.now at }
{
    let b = s.get(at..)?.get(..10)?;
    let value = decode(b);
    if fits_column(value) && b == column_of(value).as_slice() {
        Some(value)
    } else {
        None
    }
}

// The number that at most ten bytes show, read leniently: whether they are its column is not asked.
fn decode(b: &[u8]) -> i64
    requires { length b.now ≤ 10 }
    ensures { result ≡ decode b.now }
{
    let m = value_of(b) as i64;
    if b.contains(&b'-') { -m } else { m }
}

// The number whose digits the bytes are; a byte below them all is read as 0.
fn value_of(b: &[u8]) -> u64
    requires { length b.now ≤ 10 }
    ensures { (result ≡ value_after 0 b.now) × (result < 2 ^ 40) }
{
    let mut m: u64 = 0;
    for byte in b {
        m = m * 10 + u64::from(byte.saturating_sub(b'0'));
    }
    m
}
