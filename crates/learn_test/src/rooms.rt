// The arrays. Functions make them, so that a proof sees their length and not their elements.
ghost use Rattle.std.specs.Prelude.{◌≡◌, length};

// All of one value.
pub fn filled<T: Copy, const N: usize>(value: T) -> [T; N]
    ensures { N ≡ length result }
{
    [value; N]
}

// Six rows of which property 0 is the row's number.
pub fn tied_properties() -> [i32; 144]
    ensures { 144 ≡ length result }
{
    let mut r = [0i32; 144];
    r[24] = 1;
    r[48] = 2;
    r[72] = 3;
    r[96] = 4;
    r[120] = 5;
    r
}

// Their tokens, of predictors 0 and 1.
pub fn tied_tokens() -> [u8; 84]
    ensures { 84 ≡ length result }
{
    let mut r = [0u8; 84];
    r[0] = 1;
    r[15] = 16;
    r[28] = 16;
    r[42] = 1;
    r[43] = 16;
    r[56] = 16;
    r[57] = 1;
    r
}

// Five rows of which property 0 is the row's number.
pub fn uneven_properties() -> [i32; 120]
    ensures { 120 ≡ length result }
{
    let mut r = [0i32; 120];
    r[24] = 1;
    r[48] = 2;
    r[72] = 3;
    r[96] = 4;
    r
}

// Their tokens, of predictors 0 and 1: with logarithms of 0 they cost 2, 4 and 9 extra bits.
pub fn uneven_tokens() -> [u8; 70]
    ensures { 70 ≡ length result }
{
    let mut r = [0u8; 70];
    r[1] = 16;
    r[15] = 16;
    r[28] = 44;
    r[43] = 44;
    r[56] = 24;
    r
}

// Logarithms of 1 to 6.
pub const TRUE_LOGS: [f32; 7] = [0.0, 0.0, 1.0, 1.5849625, 2.0, 2.321928, 2.5849626];

// Six rows of zeros with one token too large, in row 2.
pub fn odd_tokens() -> [u8; 84]
    ensures { 84 ≡ length result }
{
    let mut r = [0u8; 84];
    r[36] = 17;
    r
}
