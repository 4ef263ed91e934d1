// Packing and tokens on many inputs, each read back by a decoder of its own, and the lister's
// example. It prints how many cases of each kind were tried, how many came out wrong, and the first
// of these.
#![tactic(auto)]

mod decoder;

use decoder::Config;
use model::Encoded;
use std::io;
use tally::{Tally, report};

const CONFIG: Config = Config {
    split: 4,
    msb: 2,
    lsb: 0,
};

// Whether a value's token and extra bits are read back, by the decoder and by `token_value`.
fn value_reads_back(value: u32) -> bool {
    let Encoded { token, nbits, bits } = entropy::uint_encode(value);
    let count = CONFIG.extra_bits(token);
    token <= 127
        && nbits == count
        && decoder::fits(bits, count)
        && CONFIG.read_hybrid(token, bits) == value
        && entropy::token_value(token, bits) == Ok(value)
}

// Consecutive values, from one on.
fn values(first: u32, count: u32, before: Tally) -> Tally {
    (0..count)
        .map(|k| first.wrapping_add(k))
        .fold(before, |t, v| t.with(value_reads_back(v), v))
}

// Five values around each power of two.
fn powers() -> Tally {
    (0..32u32).fold(Tally::none(), |t, k| {
        values(1u32.wrapping_shl(k).wrapping_sub(2), 5, t)
    })
}

// Whether a residual, given with its 32-bit pattern, is read back from its packed value, and that
// from its token.
fn residual_reads_back(z: i32, bits: u32) -> bool {
    let packed = entropy::pack_signed(z);
    decoder::unpack_signed(packed) == bits && value_reads_back(packed)
}

// The residuals -32,768 to 32,767.
fn residuals() -> Tally {
    (0..32768i32).fold(Tally::none(), |t, k| {
        let natural = k.unsigned_abs();
        let negative = natural.wrapping_sub(32768);
        let t = t.with(
            residual_reads_back(k.wrapping_sub(32768), negative),
            negative,
        );
        t.with(residual_reads_back(k, natural), natural)
    })
}

// The ends of 32 bits, and the numbers whose double is past them, each with its pattern.
const FAR_RESIDUALS: [(i32, u32); 8] = [
    (-2147483648, 2147483648),
    (-2147483647, 2147483649),
    (-1073741825, 3221225471),
    (-1073741824, 3221225472),
    (1073741823, 1073741823),
    (1073741824, 1073741824),
    (2147483646, 2147483646),
    (2147483647, 2147483647),
];

fn far_residuals() -> Tally {
    FAR_RESIDUALS.iter().fold(
        Tally::none(),
        |t, &(z, bits)| t.with(residual_reads_back(z, bits), bits),
    )
}

// Whether a token and its extra bits are read as the decoder reads them and written back, or
// refused: a token over 127, or extra bits of more than their count.
fn pair_is_right(token: u32, extra: u32) -> bool {
    let count = CONFIG.extra_bits(token);
    let allowed = token <= 127 && decoder::fits(extra, count);
    let Ok(v) = entropy::token_value(token, extra) else {
        return !allowed;
    };
    let coded = Encoded {
        token,
        nbits: count,
        bits: extra,
    };
    allowed && entropy::uint_encode(v) == coded && v == CONFIG.read_hybrid(token, extra)
}

// A token with extra bits at and around the largest that its count allows, and at both ends of 32
// bits.
fn borders(token: u32, before: Tally) -> Tally {
    let limit = 1u32.checked_shl(CONFIG.extra_bits(token)).unwrap_or(0);
    let extras = [
        0,
        1,
        limit.wrapping_sub(2),
        limit.wrapping_sub(1),
        limit,
        limit.wrapping_add(1),
        u32::MAX,
    ];
    extras.iter().fold(
        before,
        |t, &extra| t.with(pair_is_right(token, extra), token),
    )
}

// Tokens 0 to 255, and the largest.
fn tokens() -> Tally {
    let below = (0..256u32).fold(Tally::none(), |t, token| borders(token, t));
    borders(u32::MAX, below)
}

fn coded_as(value: u32, token: u32, nbits: u32, bits: u32) -> bool {
    entropy::uint_encode(value) == Encoded { token, nbits, bits }
}

// Document 01's rows.
fn bench() -> Tally {
    let t = Tally::none();
    let t = t.with(coded_as(15, 15, 0, 0), 15);
    let t = t.with(coded_as(16, 16, 2, 0), 16);
    let t = t.with(coded_as(4294967295, 127, 29, 536870911), 4294967295);
    let t = t.with(entropy::pack_signed(0) == 0, 0);
    let t = t.with(entropy::pack_signed(-1) == 1, 1);
    let t = t.with(entropy::pack_signed(1) == 2, 2);
    t.with(entropy::pack_signed(-2147483648) == 4294967295, 4294967295)
}

// Document 01's example of the lister: residuals 0, -8 and 8.
fn lister() -> Tally {
    let input = [0u8, 0, 0, 0, 248, 255, 255, 255, 8, 0, 0, 0];
    let mut header = [0u8; 32];
    let h = listing::list_header(&mut header);
    let mut lines = [0u8; 120];
    let n = listing::list_part(&input, &mut lines).written;
    let t = Tally::none();
    let t = t.with(
        &header[..h] == b"residual packed token count low\n".as_slice(),
        0,
    );
    t.with(
        &lines[..n] == b"0 0 0 0 0\n-8 15 15 0 0\n8 16 16 2 0\n".as_slice(),
        1,
    )
}

fn main(rt: HostRuntime) -> io::Result<()> {
    report(&rt, b"values 0 to 65535", values(0, 65536, Tally::none()))?;
    report(&rt, b"values around powers of two", powers())?;
    report(
        &rt,
        b"values from 4294966272",
        values(4294966272, 1024, Tally::none()),
    )?;
    report(&rt, b"residuals -32768 to 32767", residuals())?;
    report(&rt, b"residuals at the ends", far_residuals())?;
    report(&rt, b"tokens at their borders", tokens())?;
    report(&rt, b"bench rows", bench())?;
    report(&rt, b"lister's example", lister())
}
