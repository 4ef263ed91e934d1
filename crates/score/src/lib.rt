// The score of one property at a node: its best threshold, and what both sides of it cost
// (document 01, "Scoring"; the Rust's `score_split_plan`).
#![tactic(auto)]

ghost use Rattle.std.specs.Prelude.{◌≡◌, List, ℕ, ◌+◌, ◌-◌, ◌*◌, ◌≤◌, ◌<◌, ℤ, length, replicate};
ghost use Rattle.model.specs.Single.{singles};
ghost use Rattle.model.specs.Settings.{Settings, max_rows};
ghost use Rattle.model.specs.Rows.{rows_of, within};
ghost use Rattle.model.specs.Score.{lower, score_of};
ghost use Rattle.cost.specs.Counted.{rows_in};
ghost use Rattle.cost.specs.Histograms.{span_of};
ghost use Rattle.score_windows.specs.Windows.{preds_of, Windows};
ghost use Rattle.score.specs.Scored.{score_is, scored_bin, scored_at, scored_to, extras_in, ExtrasFit, BinReady};
ghost use Rattle.score.specs.Scored.{Binned, Scorable, Spare};

use arrayvec::ArrayVec;
use cost::NodeCounts;
use score_bins::{SpanRows, SplitPlan};
use score_sides::{SideCounts, Sides};
use score_windows::{Lane, SideWindows};

// A threshold with its cost in bits, and how many rows are at or under it.
#[derive(Clone, Copy)]
pub struct Threshold {
    pub val: i32,
    pub bits: f32,
    pub below: u32,
}

// The lower of two scores, the first at a tie.
fn lower_score(best: Option<Threshold>, next: Option<Threshold>) -> Option<Threshold>
    ensures { score_is result ≡ lower (score_is best) (score_is next) }
{
    let Some(b) = best else {
        return next;
    };
    let Some(c) = next else {
        return best;
    };
    if c.bits < b.bits { next } else { best }
}

// How many rows a window counts.
fn rows_in(counts: &[u32]) -> u32
    requires { rows_in counts.now ≤ max_rows }
    ensures { result ≡ rows_in counts.now }
{
    counts.iter().sum()
}

// The score of a candidate from its bin, which counts the rows at most it.
fn score_at(bin: &[u32], counts: SideCounts, cand: i32) -> Option<Threshold>
    requires { BinReady bin.now counts.node.hist.now counts.node.alphabet counts.windows.lanes.now
        counts.extras.now counts.node.total counts.logs.now }
    ensures { score_is result ≡ scored_bin bin.now counts.entry.node.hist.now
        counts.entry.node.alphabet counts.entry.windows.lanes.now counts.entry.node.total
        counts.entry.logs.now cand }
{
    let total = counts.node.total;
    // every row has one token in the first window
    let size = rows_in(&bin[..counts.windows.lanes[0].width]);
    if size == 0 {
        return None;
    }
    if size == total {
        return None;
    }
    let side_logs = Sides {
        le: counts.logs[size as usize],
        gt: counts.logs[(total - size) as usize],
    };
    let sides = score_sides::lowest_sides(bin, counts, side_logs);
    Some(Threshold {
        val: cand,
        bits: sides.le + sides.gt,
        below: size,
    })
}

// The first of the lowest scores over the candidates, from the bins.
fn score_split_plan(cells: &[u32], counts: SideCounts, cands: &[i32]) -> Option<Threshold>
    requires { Binned cells.now counts.node.hist.now counts.node.alphabet
        counts.windows.lanes.now counts.extras.now counts.windows.stride
        counts.node.total (length cands.now) counts.logs.now }
    ensures { score_is result ≡ scored_to
        (scored_at cells.now counts.entry.node.hist.now counts.entry.node.alphabet
        counts.entry.windows.lanes.now counts.entry.windows.stride counts.entry.node.total
        cands.now counts.entry.logs.now) (length cands.now) }
{
    let stride = counts.windows.stride;
    let mut best = None;
    // Stays: by the bin's number, since `chunks_exact` asks for a stride over 0, and the bins of no rows have none.
    for (k, &cand) in cands.iter().enumerate() {
        let base = k * stride;
        best = lower_score(best, score_at(&cells[base..base + stride], counts, cand));
    }
    best
}

// The extra bits of the node's rows under each side predictor.
fn extras_of(node: NodeCounts, lanes: &[Lane]) -> ArrayVec<u32, { model::NUM_MA_PREDS }>
    requires { ExtrasFit node.hist.now node.alphabet lanes.now }
    ensures { result.items ≡ extras_in node.entry.hist.now node.entry.alphabet lanes.now }
{
    let mut extras = ArrayVec::new();
    for lane in lanes {
        let start = lane.pred * node.alphabet;
        extras.push(cost::extra_bits(&node.hist[start..start + node.alphabet], 0));
    }
    extras
}

// The score of one property in room of just the bins' length, which is all zeros before and after.
fn score_in(
    span: SpanRows,
    plan: SplitPlan,
    windows: SideWindows,
    node: NodeCounts,
    logs: &[f32],
    room: &mut [u32],
) -> Option<Threshold>
    requires scorable { Scorable span.props.now span.tok.now span.first span.end plan.prop
        plan.cands.now windows.lanes.now node.alphabet node.hist.now logs.now }
    requires total_value { node.total ≡ span.end - span.first }
    requires packed { Windows node.hist.now node.alphabet windows.lanes.now windows.stride }
    requires room_value { room.old ≡ replicate ((length plan.cands.now + 1) * windows.stride) 0 }
    ensures answer { (t : Settings singles) (rows : ℕ) (rs : List ℤ)
        → t.alphabet ≡ node.entry.alphabet → span.entry.end ≤ rows
        → score_is result ≡ score_of t logs.now (preds_of windows.entry.lanes.now) plan.entry.prop
        (within (span_of span.entry.first span.entry.end)
        (rows_of rows span.entry.props.now span.entry.tok.now rs)) plan.entry.cands.now }
    ensures zeros { room.new ≡ room.old }
{
    score_bins::scan_split_plan(span, plan, windows, room);
    score_bins::accumulate(room, windows.stride);
    let extras = extras_of(node, windows.lanes);
    let counts = SideCounts {
        node,
        windows,
        extras: &extras,
        logs,
    };
    let score = score_split_plan(room, counts, plan.cands);
    room.fill(0);
    score
}

// The score of one property over the span's rows: the candidates ascend, `node` has the span's histograms, and the
// windows are the side predictors'; how many rows there are, the span tells. None: the property has nothing to offer.
// The room is all zeros, before and after; only the bins' part of it is touched.
pub fn score_property(
    span: SpanRows,
    plan: SplitPlan,
    windows: SideWindows,
    node: NodeCounts,
    logs: &[f32],
    room: &mut [u32],
) -> Option<Threshold>
    requires scorable { Scorable span.props.now span.tok.now span.first span.end plan.prop
        plan.cands.now windows.lanes.now node.alphabet node.hist.now logs.now }
    requires packed { Windows node.hist.now node.alphabet windows.lanes.now windows.stride }
    requires spare { Spare (length windows.lanes.now) node.alphabet (length plan.cands.now)
        room.old }
    ensures answer { (t : Settings singles) (rows : ℕ) (rs : List ℤ)
        → t.alphabet ≡ node.entry.alphabet → span.entry.end ≤ rows
        → score_is result ≡ score_of t logs.now (preds_of windows.entry.lanes.now) plan.entry.prop
        (within (span_of span.entry.first span.entry.end)
        (rows_of rows span.entry.props.now span.entry.tok.now rs)) plan.entry.cands.now }
    ensures zeros { room.new ≡ room.old }
{
    let node = NodeCounts {
        total: (span.end - span.first) as u32,
        ..node
    };
    let bins = (plan.cands.len() + 1) * windows.stride;
    score_in(span, plan, windows, node, logs, &mut room[..bins])
}
