// The mode of a span's residuals, and the zero-predictor tokens that follow from it, after the
// Rust's rebase_zero.
#![tactic(auto)]

ghost use Rattle.std.specs.Prelude.{◌≡◌, ◌*◌, ◌≤◌, ◌<◌, length};
ghost use Rattle.model.specs.Settings.{toks_per_row, max_rows};
ghost use Rattle.model.specs.Mode.{oftenest, mode, zero_token};
ghost use Rattle.mode.specs.Each.{Each, Offset, Differs};
ghost use Rattle.folds.specs.Counts.{tallied};
ghost use Rattle.mode.specs.Counted.{offset_of, Countable, Narrow};
ghost use Rattle.mode.specs.Column.{rezeroed, mode_at, tokens_at};
ghost use Rattle.mode.specs.Lent.{Clear, Rebasable, LowTokens};

use folds::Range;

// The zero predictor's place among a row's tokens.
const PRED_ZERO: usize = 0;

// Residuals that spread over more values have mode 0.
const MODAL_MAX_SPAN: usize = 4096;

// How far a residual lies above the lowest.
// Stays: by `abs_diff`, which asks of each residual which of the two is greater, a mode step takes 5 to 17 % longer.
fn offset(value: i32, low: i32) -> usize
    requires { Offset low 4294967296 value }
    ensures { result ≡ offset_of low value }
{
    (i64::from(value) - i64::from(low)) as usize
}

// Counts each residual of a span at its offset.
// Stays: a function for every tally would take the cell as a closure and ask where it may point.
fn tally(res: &[i32], low: i32, counts: &mut [u32])
    requires { Countable low res.now counts.old }
    ensures { counts.new ≡ tallied (offset_of low) res.now counts.old }
{
    for &value in res {
        counts[offset(value, low)] += 1;
    }
}

// The commonest residual of a span, the smallest at a tie. Only the counts in use are cleared, so
// that a small span stays cheap.
fn commonest(res: &[i32], low: i32, width: usize, counts: &mut [u32]) -> i32
    requires few { length res.now ≤ max_rows }
    requires narrow { Narrow low width res.now }
    requires clear { Clear counts.old }
    ensures answer { result ≡ oftenest res.now width low low 0 }
    ensures zeros { counts.new ≡ counts.old }
{
    tally(res, low, counts);
    let best = folds::first_greatest(&counts[..width]);
    counts[..width].fill(0);
    low + best as i32
}

// The mode of a span: 0 where there are no rows, or where the residuals spread over more than 4,096
// values.
fn span_mode(res: &[i32], counts: &mut [u32]) -> i32
    requires few { length res.now ≤ max_rows }
    requires clear { Clear counts.old }
    ensures answer { result ≡ mode res.now }
    ensures zeros { counts.new ≡ counts.old }
{
    let Some((&first, others)) = res.split_first() else {
        return 0;
    };
    let Range { low, high } = folds::range_of(first, others);
    let width = offset(high, low) + 1;
    if width > MODAL_MAX_SPAN {
        return 0;
    }
    commonest(res, low, width, counts)
}

// The zero predictor's token of a residual. A token is at most 127, so it fits its byte.
fn zero_token(value: i32, mode: i32) -> u8
    requires { Differs mode value }
    ensures { (result ≡ zero_token mode value) × (result < 128) }
{
    entropy::uint_encode(entropy::pack_signed(value - mode)).token as u8
}

// Makes the zero predictor's tokens of a span anew.
fn retoken(tok: &mut [u8], res: &[i32], mode: i32)
    requires tok_len { length tok.old ≡ length res.now * toks_per_row }
    requires each { Each (Differs mode) res.now }
    ensures tokens { tok.new ≡ rezeroed mode 0 res.now tok.old }
    ensures low { LowTokens 0 (length res.now) tok.new }
{
    // Stays: by index, since of a slice that is written through `chunks_exact_mut` a proof knows only the length.
    for (i, &value) in res.iter().enumerate() {
        tok[i * model::NUM_MA_PREDS + PRED_ZERO] = zero_token(value, mode);
    }
}

// The mode step on the rows from first to end: their mode, and their zero-predictor tokens anew.
// The first 4,096 counts are 0, before and after.
// Stays: the lists whole with the bounds beside them, as C lends them to the export of this part.
pub fn rebase_zero(tok: &mut [u8], res: &[i32], counts: &mut [u32], first: usize, end: usize) -> i32
    requires { Rebasable tok.old res.now first end counts.old }
    ensures answer { result ≡ mode_at first end res.now }
    ensures tokens { tok.new ≡ tokens_at first end res.now tok.old }
    ensures zeros { counts.new ≡ counts.old }
    ensures low { LowTokens first end tok.new }
{
    let span = &res[first..end];
    let mode = span_mode(span, counts);
    let tokens = first * model::NUM_MA_PREDS..end * model::NUM_MA_PREDS;
    retoken(&mut tok[tokens], span, mode);
    mode
}
