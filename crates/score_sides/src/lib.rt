// What both sides of a threshold cost under each side predictor, in one sweep over a window, and the lowest of each
// (document 01, "Scoring": a side's cost).
#![tactic(auto)]

ghost use Rattle.std.specs.Prelude.{◌≡◌, ◌+◌, ◌-◌, ◌*◌, ◌≤◌, ◌<◌, length};
ghost use Rattle.model.specs.Cost.{extra_from};
ghost use Rattle.score_sides.specs.Sides.{entropies_of, costs_of, lower_cost, lower_sides, SideCounted};
ghost use Rattle.score_sides.specs.Lowest.{lane_costs, costs_at, lowest_to, LaneReady, Ready};

use cost::NodeCounts;
use score_windows::{Lane, SideWindows};

// A number of each side of a threshold: of the rows at most it, and of those above.
#[derive(Clone, Copy)]
pub struct Sides {
    pub le: f32,
    pub gt: f32,
}

// The entropies of both sides under one predictor, in one sweep: `left` counts one side, and `hist` both; `side_logs`
// are the logarithms of how many rows the sides have.
fn window_entropies(left: &[u32], hist: &[u32], logs: &[f32], side_logs: Sides) -> Sides
    requires { SideCounted left.now hist.now logs.now }
    ensures { result ≡ entropies_of left.now hist.now side_logs logs.now }
{
    let mut le = 0.0f32;
    let mut gt = 0.0f32;
    for (&count, &both) in left.iter().zip(hist) {
        le = cost::add_count(le, count, side_logs.le, logs);
        gt = cost::add_count(gt, both - count, side_logs.gt, logs);
    }
    Sides { le, gt }
}

// Both sides' costs under one predictor: the entropies, then the extra bits, of which both have `extra`.
fn window_costs(
    left: &[u32],
    hist: &[u32],
    logs: &[f32],
    first: usize,
    extra: u32,
    side_logs: Sides,
) -> Sides
    requires side_counted { SideCounted left.now hist.now logs.now }
    requires left_bound { (first + length left.now ≤ 256) × (extra ≡ extra_from first hist.now) }
    ensures { result ≡ costs_of left.now hist.now first side_logs logs.now }
{
    let bits = window_entropies(left, hist, logs, side_logs);
    let le = cost::extra_bits(left, first);
    Sides {
        le: bits.le + le as f32,
        gt: bits.gt + (extra - le) as f32,
    }
}

// The lower of two costs.
// Stays: the library's `min` leaves open which of two zeros it gives.
fn lower_cost(best: f32, next: f32) -> f32
    ensures { result ≡ lower_cost best next }
{
    if next < best { next } else { best }
}

// The lower of two costs, for each side.
fn lower_sides(best: Sides, next: Sides) -> Sides
    ensures { result ≡ lower_sides best next }
{
    Sides {
        le: lower_cost(best.le, next.le),
        gt: lower_cost(best.gt, next.gt),
    }
}

// What a node counts, with the windows of its side predictors, the extra bits under each of them, and the logarithms.
// Stays: the extra bits are no field of the lanes, since they ask that the rows be few, which windows do not.
#[derive(Clone, Copy)]
pub struct SideCounts<'a> {
    pub node: NodeCounts<'a>,
    pub windows: SideWindows<'a>,
    pub extras: &'a [u32],
    pub logs: &'a [f32],
}

// Both sides' costs under the lane's predictor, of which the node has `extra` extra bits.
fn lane_costs(bin: &[u32], counts: SideCounts, lane: Lane, extra: u32, side_logs: Sides) -> Sides
    requires { LaneReady bin.now counts.node.hist.now counts.node.alphabet lane extra
        counts.logs.now }
    ensures { result ≡ lane_costs bin.now counts.entry.node.hist.now counts.entry.node.alphabet
        side_logs counts.entry.logs.now lane }
{
    let from = lane.pred * counts.node.alphabet + lane.first;
    window_costs(
        &bin[lane.off..lane.off + lane.width],
        &counts.node.hist[from..from + lane.width],
        counts.logs,
        lane.first,
        extra,
        side_logs,
    )
}

// Each side's lowest cost over the side predictors, from the bin that counts the rows at most the threshold.
pub fn lowest_sides(bin: &[u32], counts: SideCounts, side_logs: Sides) -> Sides
    requires { Ready bin.now counts.node.hist.now counts.node.alphabet
        counts.windows.lanes.now counts.extras.now counts.logs.now }
    ensures { result ≡ lowest_to
        (costs_at bin.now counts.entry.node.hist.now counts.entry.node.alphabet
        counts.entry.windows.lanes.now side_logs counts.entry.logs.now)
        (length counts.entry.windows.lanes.now) }
{
    let mut best = Sides {
        le: f32::INFINITY,
        gt: f32::INFINITY,
    };
    for (&lane, &extra) in counts.windows.lanes.iter().zip(counts.extras) {
        best = lower_sides(best, lane_costs(bin, counts, lane, extra, side_logs));
    }
    best
}
