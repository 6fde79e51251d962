// Results as numbers, and these stored in the slices that a caller lends for them.
ghost use Rattle.std.specs.Prelude.{◌≡◌, ◌++◌, ◌+◌, ◌*◌, ◌≤◌, length, drop};
ghost use Rattle.std.proofs.lemmas.List.Edits.{sets};
ghost use Rattle.curve.specs.Limits.{max_degree};
ghost use Rattle.curve.specs.Rect.{sides};
ghost use Rattle.curve.specs.Reason.{refusal_of};
ghost use Rattle.settings.specs.Results.{as_choice};
ghost use Rattle.interface.specs.Numbers.{curve_numbers, ohm_numbers, verdict_numbers, choice_numbers};
ghost use Rattle.interface.specs.Answer.{shorter, after};

use crate::answers::check_room;
use curve::{Curve, Ohms, Reason, Rect};
use search::Verdict;
use settings::Fit;

// The numbers of a rectangle as C lays them out, whatever a table's layout inside is (`RECT_SIDES` of crate curve), and those of a curve in front of its rectangles: its degree and its sum.
pub const RECT_LENGTH: usize = 4;

pub const HEAD: usize = 2;

// The numbers of a verdict, and of a choice.
const VERDICT_LENGTH: usize = 4;

const CHOICE_LENGTH: usize = 3;

// The numbers of a curve of this degree. A card's length, in bytes of text, is another.
pub fn curve_length(degree: u32) -> usize
    ensures { result ≡ 2 + 4 * (degree + 1) }
{
    HEAD + RECT_LENGTH * (degree as usize + 1)
}

// A rectangle's sides in their order. This and the three below are functions and no `From`, since neither type of either is this crate's.
pub fn sides(p: Rect) -> [i32; RECT_LENGTH]
    ensures { result ≡ sides p }
{
    [
        p.resistance.low,
        p.resistance.high,
        p.reactance.low,
        p.reactance.high,
    ]
}

// A load's ohms in the order of the sides.
pub fn ohm_numbers(o: Ohms) -> [f32; RECT_LENGTH]
    ensures { result ≡ ohm_numbers o }
{
    [o.rlow, o.rhigh, o.xlow, o.xhigh]
}

// A verdict's number, depth, index and count.
pub fn verdict_numbers(v: Verdict) -> [u32; VERDICT_LENGTH]
    ensures { result ≡ verdict_numbers v }
{
    match v {
        Verdict::Refused => [0, 0, 0, 0],
        Verdict::Inside(count) => [1, 0, 0, count],
        Verdict::Outside {
            depth,
            index,
            count,
        } => [2, depth, index, count],
        Verdict::Spent(count) => [3, 0, 0, count],
        Verdict::Undecided {
            depth,
            index,
            count,
        } => [4, depth, index, count],
    }
}

// A choice's number, index and setting number.
pub fn choice_numbers(choice: Option<Fit>) -> [u32; CHOICE_LENGTH]
    ensures { result ≡ choice_numbers (as_choice choice) }
{
    match choice {
        Some(fit) => [1, fit.index, u32::from(fit.number)],
        None => [2, 0, 0],
    }
}

// Stores numbers at an offset, which `sets` of the clause has. One by one: an enclosure takes 20 ns so, and took 25 with `copy_from_slice`, where plain Rust takes 30.
pub fn store<T: Copy>(out: &mut [T], at: usize, numbers: &[T])
    requires { at + length numbers.now ≤ length out.old }
    ensures { out.new ≡ sets out.old at numbers.now }
{
    for (k, number) in numbers.iter().enumerate() {
        out[at + k] = *number;
    }
}

// Stores numbers in front, where there is room for them.
pub fn give<T: Copy>(out: &mut [T], numbers: &[T]) -> Result<(), Reason>
    ensures refusal { refusal_of result ≡ shorter (length numbers.now) (length out.old) }
    ensures stored { out.new ≡ after (refusal_of result) numbers.now out.old }
{
    check_room(numbers.len(), out.len())?;
    store(out, 0, numbers);
    Ok(())
}

// Stores a curve's degree, sum and sides in front. The degree's range stays a clause: a curve's record may hold any.
pub fn store_curve(out: &mut [i32], c: Curve)
    requires degree_le_max_degree { c.degree ≤ max_degree }
    requires c_in_bounds { length (curve_numbers c) ≤ length out.old }
    ensures { out.new ≡ curve_numbers c ++ drop (length (curve_numbers c)) out.old }
{
    store(out, 0, &[c.degree as i32, i32::from(c.sum)]);
    for k in 0..=c.degree as usize {
        store(out, HEAD + RECT_LENGTH * k, &sides(c.points[k]));
    }
}

// The same, where there is room for them.
pub fn give_curve(out: &mut [i32], c: Curve) -> Result<(), Reason>
    requires { c.degree ≤ max_degree }
    ensures refusal { refusal_of result ≡ shorter (length (curve_numbers c)) (length out.old) }
    ensures stored { out.new ≡ after (refusal_of result) (curve_numbers c) out.old }
{
    check_room(curve_length(c.degree), out.len())?;
    store_curve(out, c);
    Ok(())
}
