// Lists the residuals of standard input, four little-endian bytes each: a header, a line for each,
// and `short` with the number of bytes left over, if there are any.
#![tactic(auto)]

ghost use Rattle.std.specs.Prelude.{◌≤◌, length, IfOk};

use std::io::{self, Read};

// The bytes of a part: those of 1,024 residuals.
const PART: usize = 4096;

fn write_header(rt: &impl Print) -> io::Result<()> {
    let mut out = [0u8; 32];
    let n = listing::list_header(&mut out);
    rt.write_all(&out[..n])
}

fn write_rest(rt: &impl Print, input: &[u8]) -> io::Result<()> {
    let mut out = [0u8; 8];
    let n = listing::list_rest(input, &mut out);
    rt.write_all(&out[..n])
}

// Writes the lines of a part: there is room for 1,638 residuals, and a part has 1,024.
fn write_lines(rt: &impl Print, input: &[u8]) -> io::Result<()> {
    let mut out = [0u8; 65536];
    let n = listing::list_part(input, &mut out).written;
    rt.write_all(&out[..n])
}

// The next part of the input: how many of its bytes there are. Only the last is shorter.
// Stays: read by hand into an array, since a `Vec` can fail for want of memory, and listing asks for none.
fn next_part<R: Read>(from: &mut R, part: &mut [u8]) -> io::Result<usize>
    ensures { IfOk result (λ n. n ≤ length part.new) }
{
    let mut n = 0;
    while n < part.len() {
        let more = from.read(&mut part[n..])?;
        if more == 0 {
            return Ok(n);
        }
        n += more;
    }
    Ok(n)
}

// Lists part after part.
fn list_all<R: Read>(rt: &impl Print, from: &mut R) -> io::Result<()> {
    let mut part = [0u8; PART];
    // Stays: a proved loop has to end, and nothing says how often a reader gives a part: so it counts its turns, up to
    // a number that no input uses up. One list of all bytes would take as much memory as the input.
    for _ in 0..u64::MAX {
        let n = next_part(from, &mut part)?;
        write_lines(rt, &part[..n])?;
        if n < PART {
            return write_rest(rt, &part[..n]);
        }
    }
    Ok(())
}

fn main(rt: HostRuntime) -> io::Result<()> {
    write_header(&rt)?;
    let mut from = rt.reader();
    list_all(&rt, &mut from)
}
