// Sides as bytes: 32-bit two's complement, least byte first.
ghost use Rattle.std.specs.Prelude.{◌≡◌, length};
ghost use Rattle.panel.specs.Panel.{interval_bytes, load_bytes};

use curve::{Interval, Rect};

// Writes an interval's two sides, four bytes each.
fn put_interval(out: &mut [u8], i: Interval)
    requires { length out.old ≡ 8 }
    ensures { out.new ≡ interval_bytes i }
{
    out[..4].copy_from_slice(&i.low.to_le_bytes());
    out[4..].copy_from_slice(&i.high.to_le_bytes());
}

// Writes a rectangle's two intervals, eight bytes each.
pub fn put_rect(out: &mut [u8], p: Rect)
    requires { length out.old ≡ 16 }
    ensures { out.new ≡ load_bytes p }
{
    put_interval(&mut out[..8], p.resistance);
    put_interval(&mut out[8..], p.reactance);
}
