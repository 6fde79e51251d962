// Writing lines of numbers in columns. Nothing is written unless everything fits.
ghost use Rattle.std.specs.Prelude.{◌≡◌, true, ◌+◌, ◌*◌, ◌≤◌, leb, length};
ghost use Rattle.columns.specs.Line.{placed, columns, all_fit, can_put_line, after_line};

use crate::NEWLINE;
use crate::text::{column_of, fits_column};

// Writes a line of numbers at an offset if all of it fits there, and says whether it did: a yes or no with no value beside it.
// The offset stays beside the buffer, as its clause (`after_line`) has it.
pub fn put_line(out: &mut [u8], at: usize, numbers: &[i64]) -> bool
    ensures { (result ≡ can_put_line out.old at numbers.now) × (out.new ≡ after_line out.old at numbers.now) }
{
    if !has_room(out.len(), at, numbers.len(), 1) || !all_fit(numbers) {
        return false;
    }
    write_columns(out, at, numbers);
    out[at + 10 * numbers.len()] = NEWLINE;
    true
}

// Whether so many columns and then so many bytes stand at an offset of a slice of this length.
fn has_room(length: usize, at: usize, count: usize, more: usize) -> bool
    ensures { result ≡ leb (at + (10 * count + more)) length }
{
    count <= length / 10 && at <= length - 10 * count && more <= length - 10 * count - at
}

// Whether each of the numbers fits a column.
fn all_fit(numbers: &[i64]) -> bool
    ensures { result ≡ all_fit numbers.now }
{
    numbers.iter().all(|value| fits_column(*value))
}

// Writes the columns of numbers that fit at an offset that has room for them; `placed` of the clause takes the offset.
fn write_columns(out: &mut [u8], at: usize, numbers: &[i64])
    requires numbers_value { all_fit numbers.now ≡ true }
    requires numbers_in_bounds { at + 10 * length numbers.now ≤ length out.old }
    ensures { out.new ≡ placed out.old at (columns numbers.now) }
{
    for (k, value) in numbers.iter().enumerate() {
        let start = at + 10 * k;
        out[start..start + 10].copy_from_slice(&column_of(*value));
    }
}
