// Text into a lent slice, from a place on. Each function answers the place after what it wrote.
// Stays: a slice and a place in it, the room that the caller gives. A `write!` into a String or an ArrayString can
// fail, for want of memory or of room, and its answer would be tested where listing can't fail; an ArrayString would
// be copied out once more.
ghost use Rattle.std.specs.Prelude.{◌<◌, [], ◌∷◌};
ghost use Rattle.listing.specs.Text.{Room, Wrote, joined, signed_decimal};
ghost use Rattle.listing.specs.Text.{decimal as Text·decimal};
ghost use Rattle.listing.specs.Listing.{line_of, short_of};
ghost use Rattle.listing.specs.Listing.{field as Listing·field};

use entropy::{pack_signed, uint_encode};

// One character.
fn byte(out: &mut [u8], at: usize, b: u8) -> usize
    requires { Room out.old at (b ∷ []) }
    ensures { Wrote out.old at (b ∷ []) out.new result }
{
    out[at] = b;
    at + 1
}

// A text.
pub(crate) fn text(out: &mut [u8], at: usize, s: &[u8]) -> usize
    requires { Room out.old at s.now }
    ensures { Wrote out.old at s.now out.new result }
{
    let end = at + s.len();
    out[at..end].copy_from_slice(s);
    end
}

// A number in decimal.
fn decimal(out: &mut [u8], at: usize, n: u32) -> usize
    requires { Room out.old at (Text·decimal n) }
    ensures { Wrote out.old at (Text·decimal n) out.new result }
{
    if n < 10 {
        return byte(out, at, b'0' + n as u8);
    }
    let last = decimal(out, at, n / 10);
    byte(out, last, b'0' + (n % 10) as u8)
}

// A signed number in decimal.
fn signed_decimal(out: &mut [u8], at: usize, z: i32) -> usize
    requires { Room out.old at (signed_decimal z) }
    ensures { Wrote out.old at (signed_decimal z) out.new result }
{
    let size = z.unsigned_abs();
    if z < 0 {
        let first = byte(out, at, b'-');
        return decimal(out, first, size);
    }
    decimal(out, at, size)
}

// A space and a number.
fn field(out: &mut [u8], at: usize, n: u32) -> usize
    requires { Room out.old at (Listing·field n) }
    ensures { Wrote out.old at (Listing·field n) out.new result }
{
    let first = byte(out, at, b' ');
    decimal(out, first, n)
}

// A space and a number for each of several numbers.
fn fields(out: &mut [u8], at: usize, numbers: &[u32]) -> usize
    requires { Room out.old at (joined Listing·field numbers.now) }
    ensures { Wrote out.old at (joined Listing·field numbers.now) out.new result }
{
    let mut end = at;
    for &n in numbers {
        end = field(out, end, n);
    }
    end
}

// The line of a residual.
pub(crate) fn line(out: &mut [u8], at: usize, z: i32) -> usize
    requires { Room out.old at (line_of z) }
    ensures { Wrote out.old at (line_of z) out.new result }
{
    let packed = pack_signed(z);
    let coded = uint_encode(packed);
    let numbers = [packed, coded.token, coded.nbits, coded.bits];
    let first = signed_decimal(out, at, z);
    let end = fields(out, first, &numbers);
    byte(out, end, b'\n')
}

// `short` and a number.
pub(crate) fn short(out: &mut [u8], at: usize, n: u32) -> usize
    requires { (0 < n) × (Room out.old at (short_of n)) }
    ensures { Wrote out.old at (short_of n) out.new result }
{
    let number = text(out, at, b"short ");
    let end = decimal(out, number, n);
    byte(out, end, b'\n')
}
