// Single parts of the learner as exports, for the driver that compares them with the Rust and for the benchmark: what a
// `requires` says is the caller's to see to, since C proves nothing. The public operations are in `ma_tree`.
#![tactic(auto)]

ghost use Rattle.std.specs.Prelude.{◌≡◌, List, length, take, replicate, ℕ, ◌*◌, ◌≤◌, ℤ};
ghost use Rattle.model.specs.Single.{singles};
ghost use Rattle.model.specs.Lists.{written_over};
ghost use Rattle.model.specs.Candidates.{candidates_of};
ghost use Rattle.model.specs.Cost.{log_of, entropy_from};
ghost use Rattle.rows.specs.Flat.{flat};
ghost use Rattle.rows.specs.Cells.{span};
ghost use Rattle.rows.specs.Parted.{Divisible, Partitioned};
ghost use Rattle.mode.specs.Column.{mode_at, tokens_at};
ghost use Rattle.mode.specs.Lent.{Rebasable};
ghost use Rattle.distinct.specs.Marks.{Walkable, Places, marked_keys};
ghost use Rattle.candidates.specs.Column.{column};
ghost use Rattle.candidates.specs.Plan.{Pickable};
ghost use Rattle.cost.specs.Counted.{Counted};
ghost use Rattle.layout.specs.Tree.{NodeLists, node_lists};
ghost use Rattle.model.specs.Grow.{Entry};
ghost use Rattle.prune.specs.Held.{Prunable, HoldsTree, PrunedAs};
ghost use Rattle.model.specs.Settings as model;
ghost use Rattle.model.specs.Settings.{toks_per_row};
ghost use Rattle.model.specs.Score.{score_of};
ghost use Rattle.model.specs.Rows.{rows_of, within};
ghost use Rattle.cost.specs.Histograms.{SpanFits, CountsSpan, span_of};
ghost use Rattle.score.specs.Scored.{Spare};
ghost use Rattle.parts.specs.Answers.{score_out};
ghost use Rattle.parts.specs.Scored.{Scorable};
ghost use Rattle.parts.specs.Windows.{lanes_in, Listed, Windowable, Windows};

pub mod answers;

use answers::Scored;
use arrayvec::ArrayVec;
use candidates::{Candidates, Probe};
use cost::NodeCounts;
use layout::{MaNode, Nodes, Span, Tree};
use rows::Rows;
use score_bins::{SpanRows, SplitPlan};
use score_windows::{Lane, SideWindows};

// The tree of the first `count` entries, pruned at a price.
// Stays: an export takes its lists one by one, since a struct of slices does not cross over to C.
#[unsafe(no_mangle)]
pub extern "C" fn ostrovuc_prune(
    nodes: &mut [MaNode],
    spans: &mut [Span],
    count: usize,
    price: f32,
) -> Tree
    requires { Prunable (node_lists nodes.old spans.old) count price }
    ensures { (tree : List (Entry singles)) (lent : NodeLists)
        → HoldsTree (node_lists nodes.old spans.old) count price tree lent
        → PrunedAs price tree lent (node_lists nodes.new spans.new) result }
{
    prune::prune_tree(&mut Nodes { nodes, spans }, count, price)
}

// Where the rows begin whose property is not above the threshold.
// Stays: an export takes its lists one by one, since a struct of slices does not cross over to C.
#[unsafe(no_mangle)]
pub extern "C" fn ostrovuc_partition(
    props: &mut [i32],
    tok: &mut [u8],
    res: &mut [i32],
    first: usize,
    end: usize,
    prop: usize,
    threshold: i32,
) -> usize
    requires { Divisible (span first end) prop (flat props.old tok.old res.old) }
    ensures { Partitioned prop threshold (span first end)
        (flat props.old tok.old res.old)
        (flat props.new tok.new res.new) result }
{
    let mut rows = Rows { props, tok, res };
    rows.partition(first, end, prop, threshold)
}

// The mode of the rows from first to end, whose zero-predictor tokens are made anew. The first 4,096 counts are 0,
// before and after.
#[unsafe(no_mangle)]
pub extern "C" fn ostrovuc_mode_step(
    tok: &mut [u8],
    res: &[i32],
    first: usize,
    end: usize,
    counts: &mut [u32],
) -> i32
    requires { Rebasable tok.old res.now first end counts.old }
    ensures answer { result ≡ mode_at first end res.now }
    ensures tokens { tok.new ≡ tokens_at first end res.now tok.old }
    ensures zeros { counts.new ≡ counts.old }
{
    mode::rebase_zero(tok, res, counts, first, end)
}

// How many candidates stand at the front of `cands` then. The first 4,096 numbers of `flags` are 0, before and after.
// Stays: an export takes its lists one by one, since a struct of slices does not cross over to C.
#[unsafe(no_mangle)]
pub extern "C" fn ostrovuc_pick_candidates(
    props: &[i32],
    first: usize,
    end: usize,
    prop: usize,
    max_candidates: usize,
    flags: &mut [u32],
    cands: &mut [i32],
) -> usize
    requires { Pickable props.now prop first end flags.old × (32 ≤ length cands.old) }
    ensures answer { result ≡ length (candidates_of max_candidates (column props.now prop first end)) }
    ensures candidates { cands.new ≡ written_over
        (candidates_of max_candidates (column props.now prop first end)) cands.old }
    ensures zeros { flags.new ≡ flags.old }
{
    let probe = Probe {
        props,
        first,
        end,
        prop,
    };
    let mut picked = Candidates::new();
    candidates::pick_candidates(probe, flags, max_candidates, &mut picked);
    cands[..picked.len()].copy_from_slice(&picked);
    picked.len()
}

// The places of the set marks of words, ascending, at the front of `places`, and how many they are.
#[unsafe(no_mangle)]
pub extern "C" fn ostrovuc_mark_places(words: &[u64], places: &mut [u32]) -> usize
    requires { Walkable 0 words.now (length places.old) }
    ensures count { result ≡ length (marked_keys 0 words.now) }
    ensures places { places.new ≡ written_over (marked_keys 0 words.now) places.old }
    ensures law { Places 0 words.now (take result places.new) }
{
    distinct::walk_words(words, 0, places)
}

// Counts each predictor's tokens in the rows from first to end; the counts are 0 before.
#[unsafe(no_mangle)]
pub extern "C" fn ostrovuc_count_tokens(
    tok: &[u8],
    first: usize,
    end: usize,
    alphabet: usize,
    hist: &mut [u32],
)
    requires span_fits { SpanFits tok.now first end alphabet }
    requires hist_value { hist.old ≡ replicate (toks_per_row * alphabet) 0 }
    ensures { CountsSpan tok.now first end hist.new alphabet }
{
    cost::count_tokens(tok, first, end, alphabet, hist);
}

// The bits of a histogram: its entropy, of `total` tokens.
#[unsafe(no_mangle)]
pub extern "C" fn ostrovuc_hist_entropy_bits(hist: &[u32], total: u32, logs: &[f32]) -> f32
    requires { Counted hist.now total logs.now }
    ensures { result ≡ entropy_from singles logs.now
        (log_of singles logs.now total) singles.nought hist.now }
{
    cost::hist_entropy_bits(hist, total, logs)
}

// The windows of the side predictors in a node's histograms, packed one after the other: the first token of each, and
// where it starts. After the last start stands the length of a bin. Two lists and not one of lanes, for callers in C.
#[unsafe(no_mangle)]
pub extern "C" fn ostrovuc_set_windows(
    node: &[u32],
    preds: &[u32],
    firsts: &mut [u32],
    offs: &mut [u32],
    alphabet: usize,
)
    requires { Windowable node.now alphabet preds.now firsts.old offs.old }
    ensures { Windows node.now alphabet
        preds.now firsts.new offs.new }
{
    let (lanes, stride) = score_windows::set_windows(node, preds, alphabet);
    for (j, lane) in lanes.iter().enumerate() {
        firsts[j] = lane.first as u32;
        offs[j] = lane.off as u32;
    }
    offs[preds.len()] = stride as u32;
}

// The side predictors with the windows that lists give, as lanes: each window ends where the next starts, the last at
// the end of the bin.
fn lanes_in(preds: &[u32], firsts: &[u32], offs: &[u32]) -> ArrayVec<Lane, { model::NUM_MA_PREDS }>
    requires { Listed preds.now firsts.now offs.now }
    ensures { result.items ≡ lanes_in preds.now firsts.now offs.now }
{
    let mut lanes = ArrayVec::new();
    for (j, &pred) in preds.iter().enumerate() {
        lanes.push(Lane {
            pred: pred as usize,
            first: firsts[j] as usize,
            width: (offs[j + 1] - offs[j]) as usize,
            off: offs[j] as usize,
        });
    }
    lanes
}

// The best of the candidates of a property over the rows from first to end.
// Stays: an export takes its lists one by one, since a struct of slices does not cross over to C.
#[unsafe(no_mangle)]
pub extern "C" fn ostrovuc_score_property(
    props: &[i32],
    tok: &[u8],
    cands: &[i32],
    preds: &[u32],
    firsts: &[u32],
    offs: &[u32],
    node: &[u32],
    logs: &[f32],
    room: &mut [u32],
    first: usize,
    end: usize,
    prop: usize,
    alphabet: usize,
) -> Scored
    requires scorable { Scorable props.now tok.now first end prop
        cands.now preds.now alphabet node.now logs.now }
    requires windows { Windows node.now alphabet preds.now firsts.now offs.now }
    requires spare { Spare (length preds.now) alphabet (length cands.now) room.old }
    ensures answer { (t : model.Settings singles) (rows : ℕ) (rs : List ℤ)
        → t.alphabet ≡ alphabet → end ≤ rows
        → score_out result ≡ score_of t logs.now preds.now prop
        (within (span_of first end) (rows_of rows props.now tok.now rs)) cands.now }
    ensures zeros { room.new ≡ room.old }
{
    let span = SpanRows {
        props,
        tok,
        first,
        end,
    };
    let plan = SplitPlan { prop, cands };
    let lanes = lanes_in(preds, firsts, offs);
    let windows = SideWindows {
        lanes: &lanes,
        stride: offs[preds.len()] as usize,
    };
    let counts = NodeCounts {
        hist: node,
        total: (end - first) as u32,
        alphabet,
    };
    Scored::from(score::score_property(span, plan, windows, counts, logs, room))
}
