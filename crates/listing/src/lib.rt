// The token lister's text: residuals in, lines out, both in lent slices.
#![tactic(auto)]

mod put;
mod signed;

ghost use Rattle.std.specs.Prelude.{◌≡◌, length};
ghost use Rattle.listing.specs.Text.{over, Counts};
ghost use Rattle.listing.specs.Listing.{part_of, part_text, header_in, rest_in};

use put::{line, short, text};
use signed::residual_of;

// What became of a part: how many residuals were listed, and how many bytes their lines take.
#[derive(Clone, Copy, PartialEq, Eq, Debug)]
pub struct Listed {
    pub taken: usize,
    pub written: usize,
}

// Writes the header at the front of out, if there is room, and answers its length, or 0.
pub fn list_header(out: &mut [u8]) -> usize
    ensures answer { result ≡ length (header_in (length out.old)) }
    ensures text { out.new ≡ over out.old 0 (header_in (length out.old)) }
    ensures fits { Counts result out.new }
{
    if out.len() < 32 {
        return 0;
    }
    text(out, 0, b"residual packed token count low\n")
}

// Writes the lines of input's residuals at the front of out: of as many as have room, at 40 bytes a
// line.
pub fn list_part(input: &[u8], out: &mut [u8]) -> Listed
    ensures answer { result ≡ part_of input.now (length out.old) }
    ensures text { out.new
        ≡ over out.old 0 (part_text input.now (length out.old)) }
    ensures fits { Counts result.written out.new }
{
    let taken = (input.len() / 4).min(out.len() / 40);
    let mut at: usize = 0;
    for bytes in input[..taken * 4].chunks_exact(4) {
        at = line(out, at, residual_of(bytes));
    }
    Listed { taken, written: at }
}

// Writes what follows the lines of the last part at the front of out, if there is room: nothing,
// or `short` and how many bytes are left over. Answers its length, or 0.
pub fn list_rest(input: &[u8], out: &mut [u8]) -> usize
    ensures answer { result ≡ length (rest_in input.now (length out.old)) }
    ensures text { out.new
        ≡ over out.old 0 (rest_in input.now (length out.old)) }
    ensures fits { Counts result out.new }
{
    let left = input.len() % 4;
    if out.len() < 8 {
        return 0;
    }
    if left == 0 {
        return 0;
    }
    short(out, 0, left as u32)
}
