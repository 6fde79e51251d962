// A number's column as bytes, and whether it fits one. It is made by hand, as it is read: the clauses are `column` and `decode` (specs/Column.antt), which no width of std's states.
ghost use Rattle.std.specs.Prelude.{◌≡◌, true, ◌+◌, ◌%◌};
ghost use Rattle.columns.specs.Column.{column, fits_column};

// Whether a number's text is at most ten bytes long.
#[tactic(auto, unfolding(crate::specs::Column::fits_column))]
pub fn fits_column(value: i64) -> bool
    ensures { result ≡ fits_column value }
{
    (-999_999_999..=9_999_999_999).contains(&value)
}

// The byte of a number's last digit.
fn last_digit(m: u64) -> u8
    ensures { result ≡ 48 + m % 10 }
{
    b'0' + (m % 10) as u8
}

// The ten bytes of a number's column: the digits from the last one back, then the minus.
// The loop ends with the digits, and the minus goes where it ended, so the place is counted by hand.
pub fn column_of(value: i64) -> [u8; 10]
    requires { fits_column value ≡ true }
    ensures { result ≡ column value }
{
    let negative = value < 0;
    let m = value.unsigned_abs();
    let mut b = [b' '; 10];
    b[9] = last_digit(m);
    let mut first: usize = 9;
    let mut rest = m / 10;
    while 0 < rest {
        first -= 1;
        b[first] = last_digit(rest);
        rest /= 10;
    }
    if negative {
        b[first - 1] = b'-';
    }
    b
}
