// A node: its cost, predictor and offset, and the split that it offers
// (document 01, "A node"; the Rust's `evaluate_rows_typed`).
#![tactic(auto)]

ghost use Rattle.std.specs.Prelude.{◌≡◌, List, ℕ, ◌-◌, ◌*◌, ◌≤◌, ◌<◌, length, take, ℤ, false, [], IfSome, IfNone};
ghost use Rattle.model.specs.Candidates.{candidates_of};
ghost use Rattle.candidates.specs.Column.{column};
ghost use Rattle.candidates.specs.Plan.{Pickable};
ghost use Rattle.model.specs.Settings.{props_per_row};
ghost use Rattle.model.specs.Lists.{is_empty};
ghost use Rattle.model.specs.Evaluate.{property_order, twin, nowhere, better, best_from, best_split, offer_of};
ghost use Rattle.refuse.specs.Given.{settings_of};
ghost use Rattle.cost.specs.Histograms.{CountsSpan};
ghost use Rattle.cost.specs.Predictors.{node_costs};
ghost use Rattle.layout.specs.Values.{offer_is};
ghost use Rattle.score_windows.specs.Windows.{preds_of};
ghost use Rattle.score.specs.Scored.{score_is};
ghost use Rattle.evaluate.specs.Order.{order_count, twin_is, equal_columns, repeats_in};
ghost use Rattle.evaluate.specs.Best.{best_is};
ghost use Rattle.evaluate.specs.Evaluated.{Evaluable, Evaluated, Splittable, span_rows, scored_at, info_with};

use candidates::{Candidates, Probe};
use cost::{Cheapest, NodeCounts};
use layout::{Leaf, NodeInfo, Offer, Span};
use refuse::{Job, Settings};
use rows::RowsView;
use score::Threshold;
use score_bins::{SpanRows, SplitPlan};
use score_windows::SideWindows;

// The properties in the order in which they are scored.
const PROPERTY_ORDER: [usize; model::NUM_MA_PROPS] = [
    0, 1, 2, 3, 4, 5, 6, 7, 8, 9, 10, 11, 12, 13, 14, 16, 17, 18, 19, 20, 21, 22, 23, 15,
];

// A split at a threshold of a property, its cost in bits, and how many rows go below.
#[derive(Clone, Copy)]
struct Split {
    prop: u32,
    val: i32,
    bits: f32,
    below: u32,
}

// How many properties are scored: 15, the last, only with the weighted predictor.
fn property_count(weighted: bool) -> usize
    ensures { result ≡ order_count weighted }
{
    if weighted {
        model::NUM_MA_PROPS
    } else {
        model::NUM_MA_PROPS - 1
    }
}

// The twin of a signed property: its absolute value, which may be the same throughout a node.
fn twin_of(prop: usize) -> Option<usize>
    ensures { twin_is result ≡ twin prop }
{
    match prop {
        6 | 7 => Some(prop - 2),
        17 | 19 | 21 | 23 => Some(prop - 1),
        _ => None,
    }
}

// Whether two properties are equal in each row of the span.
fn columns_equal(span: SpanRows, a: usize, b: usize) -> bool
    requires { (span.first ≤ span.end) × (span.end * props_per_row ≤ length span.props.now)
        × (a < props_per_row) × (b < props_per_row) }
    ensures { result ≡ equal_columns span.entry.props.now span.entry.first span.entry.end a b }
{
    span.props[span.first * model::NUM_MA_PROPS..span.end * model::NUM_MA_PROPS]
        .chunks_exact(model::NUM_MA_PROPS)
        .all(|row| row[a] == row[b])
}

// Whether a property repeats its twin, which was planned. Its candidates and costs would be the twin's, and the earlier
// property wins ties.
fn is_repeated(span: SpanRows, prop: usize, planned: &[bool]) -> bool
    requires { (span.first ≤ span.end) × (span.end * props_per_row ≤ length span.props.now)
        × (prop < props_per_row) × (length planned.now ≡ props_per_row) }
    ensures { result ≡ repeats_in planned.now span.entry.props.now span.entry.first span.entry.end
        prop (twin prop) }
{
    let Some(twin) = twin_of(prop) else {
        return false;
    };
    planned[twin] && columns_equal(span, twin, prop)
}

// The next score if it is lower than the best so far.
// Stays: `score::lower_score` compares two of one type; here the next has no property yet, and gets one only if it
// wins.
fn better_of(best: Option<Split>, prop: u32, score: Option<Threshold>) -> Option<Split>
    ensures { best_is result ≡ better (best_is best) prop (score_is score) }
{
    let Some(Threshold { val, bits, below }) = score else {
        return best;
    };
    match best {
        Some(lowest) if !(bits < lowest.bits) => best,
        _ => Some(Split {
            prop,
            val,
            bits,
            below,
        }),
    }
}

// The candidates of a property over the span's rows, in `cands`. The flags at the front of the count space are as
// before.
fn candidates_in(
    span: SpanRows,
    prop: usize,
    counts: &mut [u32],
    most: usize,
    cands: &mut Candidates,
)
    requires { Pickable span.props.now prop span.first span.end (take 4096 counts.old) }
    ensures answer { cands.new.items ≡ candidates_of most
        (column span.entry.props.now prop span.entry.first span.entry.end) }
    ensures zeros { counts.new ≡ counts.old }
{
    let probe = Probe {
        props: span.props,
        first: span.first,
        end: span.end,
        prop,
    };
    let flags = &mut counts[..distinct::PROBE_FLAGS];
    candidates::pick_candidates(probe, flags, most, cands);
}

// The plan of a property: its candidates, if it has any.
fn plan_of(prop: usize, cands: &[i32]) -> Option<SplitPlan>
    ensures some { IfSome result (λ plan. (plan.prop ≡ prop) × (plan.cands.now ≡ cands.now)
        × (is_empty cands.now ≡ false)) }
    ensures none { IfNone result (cands.now ≡ []) }
{
    if cands.is_empty() {
        return None;
    }
    Some(SplitPlan { prop, cands })
}

// The first of the lowest scores over the properties. A property that repeats another or yields no candidate is passed
// over at once.
fn best_split(
    span: SpanRows,
    sides: SideWindows,
    node: NodeCounts,
    counts: &mut [u32],
    job: Job,
) -> Option<Split>
    requires alphabet { node.alphabet ≡ job.settings.alphabet }
    requires splittable { Splittable span.props.now span.tok.now span.first span.end job.settings
        sides.lanes.now sides.stride node.hist.now job.logs.now counts.old }
    ensures answer { (rows : ℕ) (rs : List ℤ) → span.entry.end ≤ rows
        → best_is result ≡ best_from (settings_of job.entry.settings) job.entry.logs.now
        (preds_of sides.entry.lanes.now)
        (span_rows span.entry.first span.entry.end span.entry.props.now span.entry.tok.now rows rs)
        nowhere (property_order job.entry.settings.allow_wp) }
    ensures zeros { counts.new ≡ counts.old }
{
    let s = job.settings;
    let most = s.max_candidates as usize;
    let room = distinct::PROBE_FLAGS + model::NUM_MA_PREDS * node.alphabet;
    let mut planned = [false; model::NUM_MA_PROPS];
    let mut best = None;
    let mut cands = Candidates::new();
    for &prop in &PROPERTY_ORDER[..property_count(s.allow_wp)] {
        if is_repeated(span, prop, &planned) {
            continue;
        }
        candidates_in(span, prop, counts, most, &mut cands);
        let Some(plan) = plan_of(prop, &cands) else {
            continue;
        };
        planned[prop] = true;
        let rest = &mut counts[room..];
        let score = score::score_property(span, plan, sides, node, job.logs, rest);
        best = better_of(best, prop as u32, score);
    }
    best
}

// The split that a node offers: its best one, if that gains more than 0 over the node's cost.
fn offer_of(best: Option<Split>, cost: f32, s: Settings) -> Option<Offer>
    ensures { offer_is result ≡ offer_of (settings_of s) cost (best_is best) }
{
    let split = best?;
    let gain = (cost - split.bits) - s.split_cost_bits;
    if 0.0 < gain {
        return Some(Offer {
            prop: split.prop,
            val: split.val,
            gain,
            below: split.below,
        });
    }
    None
}

// The split that a node offers, from its histograms: the properties are scored with the windows of the cheapest
// predictors.
fn offer_split(
    span: SpanRows,
    node: NodeCounts,
    costs: &[f32],
    counts: &mut [u32],
    job: Job,
    cost: f32,
) -> Option<Offer>
    requires alphabet { node.alphabet ≡ job.settings.alphabet }
    requires evaluable { Evaluable span.props.now span.tok.now span.first span.end
        job.settings job.logs.now counts.old }
    requires counts_span { CountsSpan span.tok.now span.first span.end node.hist.now job.settings.alphabet }
    requires costs_value { costs.now ≡ node_costs node.hist.now (span.end - span.first)
        job.settings.alphabet job.settings.allow_wp job.settings.allowed_preds job.logs.now }
    ensures answer { (rows : ℕ) (rs : List ℤ) → span.entry.end ≤ rows
        → offer_is result ≡ offer_of (settings_of job.entry.settings) cost
        (best_split (settings_of job.entry.settings) job.entry.logs.now
        (span_rows span.entry.first span.entry.end span.entry.props.now span.entry.tok.now rows rs)) }
    ensures zeros { counts.new ≡ counts.old }
{
    let s = job.settings;
    let preds = cost::cheapest_predictors(costs, s.allowed(), s.side_preds as usize);
    let (lanes, stride) = score_windows::set_windows(node.hist, &preds, node.alphabet);
    let windows = SideWindows {
        lanes: &lanes,
        stride,
    };
    let best = best_split(span, windows, node, counts, job);
    offer_of(best, cost, s)
}

// Whether the properties are scored: enough rows, not too deep, and a cost above the split cost. The last is document
// 01's rule and no shortcut: with lent logarithms that fall a split may gain more than the node costs.
fn is_scored(rows: usize, depth: u32, cost: f32, s: Settings) -> bool
    ensures { result ≡ scored_at (settings_of s) depth cost rows }
{
    (s.min_node as usize <= rows) & (depth < 26) & (s.split_cost_bits < cost)
}

// The node's cost and predictor. Its offset is the mode if predictor 0 wins, else 0.
fn info_of(best: Cheapest, mode: i32) -> NodeInfo
    ensures { result ≡ info_with best mode }
{
    let offset = if best.pred == 0 { mode } else { 0 };
    NodeInfo {
        cost: best.bits,
        pred: best.pred,
        offset,
    }
}

// A node from its counts: what stands beside it, and the split that it offers if it is to be scored.
// Stays: of depth, mode and whether a split may follow each comes from elsewhere (the caller's queue, the step on the
// span, how large the tree is), so a struct of the three would be made for this call and taken apart in it. Nor is it
// an Option of the depth: whether a split may follow is one fact of the growth, and the depth one of each leaf, which
// the queue keeps too, so that the Option would be made and opened again at each call.
pub fn evaluate_counts(
    span: SpanRows,
    hist: &[u32],
    counts: &mut [u32],
    job: Job,
    depth: u32,
    mode: i32,
    score_split: bool,
) -> Leaf
    requires evaluable { Evaluable span.props.now span.tok.now span.first span.end
        job.settings job.logs.now counts.old }
    requires counts_span { CountsSpan span.tok.now span.first span.end hist.now job.settings.alphabet }
    ensures answer { (rows : ℕ) (rs : List ℤ) → span.entry.end ≤ rows
        → Evaluated result score_split (settings_of job.entry.settings) job.entry.logs.now mode depth
        (span_rows span.entry.first span.entry.end span.entry.props.now span.entry.tok.now rows rs) }
    ensures zeros { counts.new ≡ counts.old }
{
    let s = job.settings;
    let rows = span.end - span.first;
    let mut costs = [0.0f32; model::NUM_MA_PREDS];
    let node = NodeCounts {
        hist,
        total: rows as u32,
        alphabet: s.alphabet as usize,
    };
    let best = cost::predictor_costs(node, s.allowed(), &mut costs, job.logs);
    let info = info_of(best, mode);
    if score_split & is_scored(rows, depth, best.bits, s) {
        let offer = offer_split(span, node, &costs, counts, job, best.bits);
        return Leaf { info, offer };
    }
    Leaf { info, offer: None }
}

// Counts the span's rows, and evaluates the node. The count space is as before.
// Stays: as `evaluate_counts`.
pub fn evaluate_rows(
    rows: RowsView,
    counts: &mut [u32],
    job: Job,
    span: Span,
    depth: u32,
    mode: i32,
    score_split: bool,
) -> Leaf
    requires { Evaluable rows.props.now rows.tok.now span.first span.end
        job.settings job.logs.now counts.old }
    ensures answer { (n : ℕ) (rs : List ℤ) → span.end ≤ n
        → Evaluated result score_split (settings_of job.entry.settings) job.entry.logs.now mode depth
        (span_rows span.first span.end rows.entry.props.now rows.entry.tok.now n rs) }
    ensures zeros { counts.new ≡ counts.old }
{
    let (first, end) = (span.first as usize, span.end as usize);
    let alphabet = job.settings.alphabet as usize;
    let cells = model::NUM_MA_PREDS * alphabet;
    let mut hist = [0u32; model::NUM_MA_PREDS * 256];
    cost::count_tokens(rows.tok, first, end, alphabet, &mut hist[..cells]);
    let span = SpanRows {
        props: rows.props,
        tok: rows.tok,
        first,
        end,
    };
    evaluate_counts(span, &hist[..cells], counts, job, depth, mode, score_split)
}
