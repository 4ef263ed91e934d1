// Packing and tokens, after the Rust's entropy/token.rs.
#![tactic(auto)]

ghost use Rattle.std.specs.Prelude.{◌≡◌};
ghost use Rattle.model.specs.Standard.{unpack_signed};
ghost use Rattle.model.specs.Pack.{packed, pattern as Pack·pattern};
ghost use Rattle.model.specs.Token.{extra_count, encoded_of};
ghost use Rattle.model.specs.Operations.{token_answer};
ghost use Rattle.model.specs.Answered.{outcome_of_result};

use model::{Encoded, Refusal};

// The 32-bit pattern of a signed number.
pub fn pattern(value: i32) -> u32
    ensures { result ≡ Pack·pattern value }
{
    value.cast_unsigned()
}

// A signed number as an unsigned one: 0, -1, 1, -2 .. give 0, 1, 2, 3 ..
pub fn pack_signed(value: i32) -> u32
    ensures { result ≡ packed value }
{
    let bits = pattern(value);
    let doubled = bits.wrapping_add(bits);
    if value < 0 {
        u32::MAX - doubled
    } else {
        doubled
    }
}

// The signed number that was packed so: 0, 1, 2, 3 .. give 0, -1, 1, -2 ..
pub fn unpack_signed(value: u32) -> i32
    ensures { result ≡ unpack_signed value }
{
    let half = (value / 2).cast_signed();
    if value % 2 == 0 { half } else { -1 - half }
}

// The token of a value, how many extra bits follow it, and those bits.
pub fn uint_encode(value: u32) -> Encoded
    ensures { result ≡ encoded_of value }
{
    if value < 16 {
        return Encoded {
            token: value,
            nbits: 0,
            bits: 0,
        };
    }
    let n = 31 - value.leading_zeros();
    let m = value - (1 << n);
    let nbits = n - 2;
    let token = (n << 2) + (m >> nbits);
    let bits = value & ((1u32 << nbits) - 1);
    Encoded { token, nbits, bits }
}

// How many extra bits follow a token.
pub fn extra_count(token: u32) -> u32
    ensures { result ≡ extra_count token }
{
    if token < 16 { 0 } else { token / 4 - 2 }
}

// The value of a token and its extra bits. Refused are a token over 127, and extra bits too large
// for their count.
pub fn token_value(token: u32, extra: u32) -> Result<u32, Refusal>
    ensures { outcome_of_result result ≡ token_answer token extra }
{
    if token > 127 {
        return Err(Refusal::BadCode);
    }
    let nbits = extra_count(token);
    if extra >= 1 << nbits {
        return Err(Refusal::BadCode);
    }
    if token < 16 {
        return Ok(token);
    }
    Ok(((4 + token % 4) << nbits) + extra)
}
