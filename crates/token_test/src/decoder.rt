// The standard's reading of hybrid integers and of signed numbers, written apart from the code under
// test: ISO/IEC 18181-1's general form, for any configuration, one bit at a time.

// How a hybrid integer is cut: values below 2^split are tokens; a larger one keeps its msb highest
// bits, after the top bit, and its lsb lowest bits in the token.
#[derive(Clone, Copy)]
pub struct Config {
    pub split: u32,
    pub msb: u32,
    pub lsb: u32,
}

fn shifted_left(x: u32, k: u32) -> u32 {
    x.checked_shl(k).unwrap_or(0)
}

fn shifted_right(x: u32, k: u32) -> u32 {
    x.checked_shr(k).unwrap_or(0)
}

// The value with one bit more at its end: bit k of the source.
fn with_bit(value: u32, source: u32, k: u32) -> u32 {
    let doubled = value.wrapping_add(value);
    doubled.wrapping_add(shifted_right(source, k) % 2)
}

// The value with the source's lowest bits at its end, the highest of them first.
fn with_bits(value: u32, source: u32, count: u32) -> u32 {
    (0..count)
        .rev()
        .fold(value, |all, k| with_bit(all, source, k))
}

impl Config {
    // How many extra bits follow a token.
    pub fn extra_bits(self, token: u32) -> u32 {
        let split = shifted_left(1, self.split);
        if token < split {
            return 0;
        }
        let kept = self.msb.wrapping_add(self.lsb);
        let first = self.split.wrapping_sub(kept);
        first.wrapping_add(shifted_right(token - split, kept))
    }

    // The value of a token with its extra bits.
    pub fn read_hybrid(self, token: u32, extra: u32) -> u32 {
        if token < shifted_left(1, self.split) {
            return token;
        }
        let high = with_bits(1, shifted_right(token, self.lsb), self.msb);
        let middle = with_bits(high, extra, self.extra_bits(token));
        with_bits(middle, token, self.lsb)
    }
}

// Whether a number has no more bits than count.
pub fn fits(extra: u32, count: u32) -> bool {
    extra.checked_shr(count) == Some(0)
}

// UnpackSigned, as a 32-bit pattern: half of an even number; half of an odd one, every bit turned.
pub fn unpack_signed(u: u32) -> u32 {
    (u >> 1) ^ 0u32.wrapping_sub(u % 2)
}
