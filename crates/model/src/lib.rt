// The numbers of document 01 that every crate goes by, and the answers that the definitions of specs/ and the code
// share.
#![tactic(auto)]

ghost use Rattle.std.specs.Prelude.{◌≡◌};
ghost use Rattle.model.specs.Answered.{refusal_of};

// The properties of a row.
pub const NUM_MA_PROPS: usize = 24;

// The tokens of a row, one for each predictor.
pub const NUM_MA_PREDS: usize = 14;

// The most rows of a job.
pub const MAX_ROWS: usize = 65536;

// The most leaves of a tree.
pub const MAX_LEAVES: usize = 4096;

// What a value is coded as: its token, how many extra bits follow, and those bits. It crosses over to C.
#[repr(C)]
#[derive(Clone, Copy, PartialEq, Eq, Debug)]
pub struct Encoded {
    pub token: u32,
    pub nbits: u32,
    pub bits: u32,
}

// A symbol of a tree as ISO/IEC 18181-1 transmits it: a context number of the standard, and the number that is coded in
// that context. It crosses over to C.
#[repr(C)]
#[derive(Clone, Copy, PartialEq, Eq, Debug)]
pub struct Symbol {
    pub context: u32,
    pub value: u32,
}

// The context numbers, in their order: of a split's value; of a property + 1, or 0 for a leaf; of a leaf's predictor,
// of its offset, and of the two numbers that tell its multiplier.
pub const SPLIT_VAL_CONTEXT: u32 = 0;

pub const PROPERTY_CONTEXT: u32 = 1;

pub const PREDICTOR_CONTEXT: u32 = 2;

pub const OFFSET_CONTEXT: u32 = 3;

pub const MULTIPLIER_LOG_CONTEXT: u32 = 4;

pub const MULTIPLIER_BITS_CONTEXT: u32 = 5;

// A split is two symbols: its property + 1, and its value.
pub const SPLIT_SYMBOLS: usize = 2;

// A leaf is five: 0 in a property's place, its predictor, its offset, and the two that tell its multiplier.
pub const LEAF_SYMBOLS: usize = 5;

// A refusal: why a job is not done, with the row or the node that is named.
#[derive(Clone, Copy, PartialEq, Eq, Debug)]
pub enum Refusal {
    BadSetting,
    NoPredictor,
    UnevenRows,
    BadToken(u32),
    ShortAlphabet,
    BadLogarithms,
    ShortOfRoom,
    UnsoundTree(u32),
    UnevenProperties,
    BadCode,
    BadSymbols,
}

impl Refusal {
    // The number that callers are told.
    pub fn number(self) -> u32
        ensures { result ≡ (refusal_of self).number }
    {
        match self {
            Refusal::BadSetting => 1,
            Refusal::NoPredictor => 2,
            Refusal::UnevenRows => 3,
            Refusal::BadToken(_) => 4,
            Refusal::ShortAlphabet => 5,
            Refusal::BadLogarithms => 6,
            Refusal::ShortOfRoom => 7,
            Refusal::UnsoundTree(_) => 8,
            Refusal::UnevenProperties => 9,
            Refusal::BadCode => 10,
            Refusal::BadSymbols => 11,
        }
    }

    // The row or the node that is named, else 0.
    pub fn place(self) -> u32
        ensures { result ≡ (refusal_of self).place }
    {
        match self {
            Refusal::BadToken(row) => row,
            Refusal::UnsoundTree(node) => node,
            _ => 0,
        }
    }
}
