// Rows counted by the interval between two candidates that they fall into, and by token, in one pass; then summed from
// the lowest interval up (document 01, "Scoring": values ≤ candidate and above; the Rust's `scan_split_plans`).
#![tactic(auto)]

ghost use Rattle.std.specs.Prelude.{◌≡◌, ◌+◌, ◌-◌, ◌*◌, ◌≤◌, ◌<◌, length};
ghost use Rattle.model.specs.Settings.{props_per_row};
ghost use Rattle.cost.specs.Histograms.{bumped, tallied};
ghost use Rattle.score_bins.specs.Bins.{tallied_rows, summed, bin_of, lane_cell, place_in, bin_cell};
ghost use Rattle.score_bins.specs.Bins.{Low, RowsThere, TokenFits, InLanes, Lanes, SumsLow};

use score_windows::{Lane, SideWindows};

// The rows from first to end of the lists of properties and tokens.
// Stays: the lists whole with the bounds beside them, since the contracts equate with the model's rows from first to
// end of the whole lists: cut, they would speak of other lists, and each caller would cut two.
#[derive(Clone, Copy)]
pub struct SpanRows<'a> {
    pub props: &'a [i32],
    pub tok: &'a [u8],
    pub first: usize,
    pub end: usize,
}

// The candidates for a threshold of a property, which ascend.
#[derive(Clone, Copy)]
pub struct SplitPlan<'a> {
    pub prop: usize,
    pub cands: &'a [i32],
}

// How many candidates lie below the value: a plain count, which is faster than a search, since its turns do not depend
// on the value.
fn bin_for(cands: &[i32], v: i32) -> u32
    requires { length cands.now ≤ 32 }
    ensures { result ≡ bin_of cands.now v }
{
    let mut bin = 0;
    for &candidate in cands {
        bin += u32::from(candidate < v);
    }
    bin
}

// Counts a row's token in a window, in the bin that starts at `base`.
fn count_token(toks: &[u8], cells: &mut [u32], lane: Lane, base: usize)
    requires { TokenFits toks.now lane base cells.old }
    ensures { cells.new ≡ bumped (place_in lane toks.now base) cells.old }
{
    let token = usize::from(toks[lane.pred]);
    cost::bump(cells, base + lane.off + (token - lane.first));
}

// Counts a row's tokens in the windows, in the bin that starts at `base`.
fn scan_row(toks: &[u8], lanes: &[Lane], cells: &mut [u32], base: usize)
    requires in_lanes { InLanes toks.now lanes.now base (length cells.old) }
    requires low { Low 920000 cells.old }
    ensures { cells.new ≡ tallied (lane_cell toks.now lanes.now base) (length lanes.now) cells.old }
{
    for &lane in lanes {
        count_token(toks, cells, lane, base);
    }
}

// Counts the span's rows by the property's bins, in one pass. It is put in the places of its two calls, since the loop
// over lanes is unrolled where their number is known.
#[inline(always)]
fn scan_rows(span: SpanRows, plan: SplitPlan, windows: SideWindows, cells: &mut [u32])
    requires rows_there { (span.first ≤ span.end)
        × RowsThere span.props.now span.tok.now span.first (span.end - span.first) }
    requires prop_lt_props_per_row { (plan.prop < props_per_row) × (length plan.cands.now ≤ 32)
        × ((length plan.cands.now + 1) * windows.stride ≤ length cells.old) }
    requires lanes { Lanes span.tok.now span.first (span.end - span.first)
        windows.lanes.now windows.stride }
    requires low { Low 0 cells.old }
    ensures { cells.new ≡ tallied_rows
        (bin_cell span.entry.props.now span.entry.tok.now span.entry.first plan.entry.prop
        plan.entry.cands.now windows.entry.lanes.now windows.entry.stride)
        (length windows.entry.lanes.now) (span.entry.end - span.entry.first) cells.old }
{
    let props = &span.props[span.first * model::NUM_MA_PROPS..span.end * model::NUM_MA_PROPS];
    let tok = &span.tok[span.first * model::NUM_MA_PREDS..span.end * model::NUM_MA_PREDS];
    let rows = props
        .chunks_exact(model::NUM_MA_PROPS)
        .zip(tok.chunks_exact(model::NUM_MA_PREDS));
    for (values, toks) in rows {
        let bin = bin_for(plan.cands, values[plan.prop]) as usize;
        scan_row(toks, windows.lanes, cells, bin * windows.stride);
    }
}

// Counts the span's rows by the property's bins, in one pass (the Rust's `scan_split_plans` with one plan).
pub fn scan_split_plan(span: SpanRows, plan: SplitPlan, windows: SideWindows, cells: &mut [u32])
    requires rows_there { (span.first ≤ span.end)
        × RowsThere span.props.now span.tok.now span.first (span.end - span.first) }
    requires prop_lt_props_per_row { (plan.prop < props_per_row) × (length plan.cands.now ≤ 32)
        × ((length plan.cands.now + 1) * windows.stride ≤ length cells.old) }
    requires lanes { Lanes span.tok.now span.first (span.end - span.first)
        windows.lanes.now windows.stride }
    requires low { Low 0 cells.old }
    ensures { cells.new ≡ tallied_rows
        (bin_cell span.entry.props.now span.entry.tok.now span.entry.first plan.entry.prop
        plan.entry.cands.now windows.entry.lanes.now windows.entry.stride)
        (length windows.entry.lanes.now) (span.entry.end - span.entry.first) cells.old }
{
    // four are the usual number: what is known of them is read once, before the rows
    if let &[a, b, c, d] = windows.lanes {
        let lanes = [a, b, c, d];
        let windows = SideWindows {
            lanes: &lanes,
            ..windows
        };
        scan_rows(span, plan, windows, cells);
        return;
    }
    scan_rows(span, plan, windows, cells);
}

// Adds to each bin but the first what stands in those before it: bin k then counts the rows at most candidate k.
pub fn accumulate(cells: &mut [u32], stride: usize)
    requires there { stride ≤ length cells.old }
    requires sums_low { SumsLow stride (length cells.old - stride) cells.old }
    ensures { cells.new ≡ summed stride (length cells.old - stride) cells.old }
{
    // Stays: each cell is added to the one a bin further after it was summed itself, so the list is read where it was
    // just written. Bin by bin, by `split_at_mut`, callers would have to show that the bins are whole, which nothing
    // here needs.
    for i in stride..cells.len() {
        cells[i] += cells[i - stride];
    }
}
