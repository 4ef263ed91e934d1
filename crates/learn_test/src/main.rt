// Learning on rows with known answers: document 01's rows about limits and refusals, and the smallest jobs on which
// equal gains matter.
// It prints how many cases of each kind were tried, how many came out wrong, and the first of these.
#![tactic(auto)]

mod rooms;

ghost use Rattle.std.specs.Prelude.{◌≤◌};

use layout::{MaNode, NodeInfo, Nodes, Span};
use lent::{Learned, Lists};
use model::Refusal;
use queue::Queue;
use refuse::{Job, Settings};
use rooms::filled;
use rows::Rows;
use std::alloc::{AllocError, Global};
use std::io;
use tally::{Tally, report};

// Settings that a case changes one by one: nothing is weighed, every predictor is allowed.
fn settings(alphabet: u32, max_leaves: u32, allowed_preds: u16, modal_offsets: bool) -> Settings {
    Settings {
        alphabet,
        max_leaves,
        split_cost_bits: 0.0,
        prune_leaf_bits: 0.0,
        min_node: 0,
        side_preds: 2,
        max_candidates: 32,
        allow_wp: true,
        allowed_preds,
        modal_offsets,
        settle: false,
    }
}

fn is_refused(r: Result<Learned, Refusal>, with: u32, at: u32) -> bool {
    let Err(refusal) = r else {
        return false;
    };
    (refusal.number() == with) & (refusal.place() == at)
}

fn is_grown(r: Result<Learned, Refusal>, nodes: u32, leaves: u32, bits: f64, flat: f64) -> bool {
    let tree = Learned {
        nodes,
        leaves,
        bits,
        flat,
    };
    r == Ok(tree)
}

// A node before anything is learned.
fn blank() -> MaNode {
    MaNode::leaf(NodeInfo::default(), 0)
}

// Learns into these nodes, with a queue for so many leaves: each has four words in it. No list is longer than the
// largest tree asks.
fn learn_in<const LEAVES: usize, const WORDS: usize>(
    rows: &mut Rows,
    at: &mut Nodes,
    counts: &mut [u32],
    job: Job,
) -> Result<Learned, Refusal>
    requires { (LEAVES ≤ 8191) × (WORDS ≤ 32764) }
{
    let mut queue_words = [0u32; WORDS];
    let mut queue_values = [0i32; LEAVES];
    let mut queue_gains = [0.0f32; LEAVES];
    let mut queue = Queue {
        words: &mut queue_words,
        values: &mut queue_values,
        gains: &mut queue_gains,
        waiting: 0,
    };
    let mut lists = Lists {
        rows,
        at,
        queue: &mut queue,
        counts,
    };
    border::learn_on(&mut lists, job)
}

// One leaf over the rows: the caller's lists have room for a limit of 1.
fn learn_one_leaf(rows: &mut Rows, counts: &mut [u32], job: Job) -> Result<Learned, Refusal> {
    let mut nodes = filled::<MaNode, 1>(blank());
    let mut spans = filled::<Span, 1>(Span::default());
    let mut at = Nodes {
        nodes: &mut nodes,
        spans: &mut spans,
    };
    learn_in::<1, 4>(rows, &mut at, counts, job)
}

// So many properties and tokens, all 0.
fn zeros(
    alloc: Global,
    cells: usize,
    tokens: usize,
) -> Result<Result<Learned, Refusal>, AllocError> {
    let mut props = vec![in alloc; 0i32; cells]?;
    let mut tok = vec![in alloc; 0u8; tokens]?;
    let logs = vec![in alloc; 0.0f32; 65538]?;
    let mut res = [0i32; 0];
    let mut counts = filled::<u32, 5504>(0);
    let mut rows = Rows {
        props: &mut props[..],
        tok: &mut tok[..],
        res: &mut res,
    };
    let job = Job {
        settings: settings(1, 1, 65535, false),
        logs: &logs[..],
    };
    Ok(learn_one_leaf(&mut rows, &mut counts, job))
}

// 65,536 rows pass, 65,537 give 3.
fn row_limit(alloc: Global) -> Result<Tally, AllocError> {
    let most = zeros(alloc, 1572864, 917504)?;
    let one_more = zeros(alloc, 1572888, 917518)?;
    Ok(
        Tally::none()
            .with(is_grown(most, 1, 1, 0.0, 0.0), 65536)
            .with(is_refused(one_more, 3, 0), 65537),
    )
}

// Nodes 2 and 3 offered two bits each, over two rows each: node 2 is split, and node 3 stays a leaf over rows 0 and 1.
fn lower_is_split(nodes: &[MaNode; 9], spans: &[Span; 9]) -> bool {
    let lower = nodes[2];
    let split = lower.is_split() & (lower.gt == 7) & (lower.le == 8);
    split & !nodes[3].is_split() & (spans[3] == Span { first: 0, end: 2 })
}

// The smallest job on which equal gains over as many rows matter, at the fifth leaf: whether learning grows so far.
fn six_rows(
    made: &mut [MaNode; 9],
    spans: &mut [Span; 9],
    max_leaves: u32,
    nodes: u32,
    bits: f64,
) -> bool {
    let mut props = rooms::tied_properties();
    let mut tok = rooms::tied_tokens();
    let mut res = [0i32; 0];
    let mut counts = filled::<u32, 5504>(0);
    let job = Job {
        settings: settings(17, max_leaves, 3, false),
        logs: &rooms::TRUE_LOGS,
    };
    let mut rows = Rows {
        props: &mut props,
        tok: &mut tok,
        res: &mut res,
    };
    let mut at = Nodes {
        nodes: &mut made[..],
        spans: &mut spans[..],
    };
    let tree = learn_in::<5, 20>(&mut rows, &mut at, &mut counts, job);
    let tied = (max_leaves < 5) | lower_is_split(made, spans);
    tied & is_grown(tree, nodes, max_leaves, bits, 6.754887580871582)
}

// The lists are lent to one case after the other, as the one before left them.
fn growth() -> Tally {
    let mut made = filled::<MaNode, 9>(blank());
    let mut spans = filled::<Span, 9>(Span::default());
    let one = six_rows(&mut made, &mut spans, 1, 1, 12.754888534545898);
    let two = six_rows(&mut made, &mut spans, 2, 3, 10.0);
    let three = six_rows(&mut made, &mut spans, 3, 5, 8.0);
    let four = six_rows(&mut made, &mut spans, 4, 7, 4.0);
    let five = six_rows(&mut made, &mut spans, 5, 9, 2.0);
    Tally::none()
        .with(one, 1)
        .with(two, 2)
        .with(three, 3)
        .with(four, 4)
        .with(five, 5)
}

// Nodes 1 and 2 offered four bits each, over two rows and over three: node 2 is split, and node 1 stays a leaf.
fn larger_is_split(nodes: &[MaNode; 5], spans: &[Span; 5]) -> bool {
    let larger = nodes[2];
    let split = larger.is_split() & (larger.gt == 3) & (larger.le == 4);
    split & !nodes[1].is_split() & (spans[1] == Span { first: 0, end: 2 })
}

// The smallest job on which the rows of equal gains matter, at the third leaf: whether learning grows so far.
fn five_rows(max_leaves: u32, nodes: u32, bits: f64) -> bool {
    let mut props = rooms::uneven_properties();
    let mut tok = rooms::uneven_tokens();
    let mut res = [0i32; 0];
    let mut counts = filled::<u32, 7786>(0);
    let mut made = filled::<MaNode, 5>(blank());
    let mut spans = filled::<Span, 5>(Span::default());
    let logs = filled::<f32, 6>(0.0);
    let job = Job {
        settings: settings(45, max_leaves, 3, false),
        logs: &logs,
    };
    let mut rows = Rows {
        props: &mut props,
        tok: &mut tok,
        res: &mut res,
    };
    let mut at = Nodes {
        nodes: &mut made,
        spans: &mut spans,
    };
    let tree = learn_in::<3, 12>(&mut rows, &mut at, &mut counts, job);
    let uneven = (max_leaves < 3) | larger_is_split(&made, &spans);
    uneven & is_grown(tree, nodes, max_leaves, bits, 4.0)
}

fn larger_first() -> Tally {
    Tally::none()
        .with(five_rows(1, 1, 13.0), 1)
        .with(five_rows(2, 3, 8.0), 2)
        .with(five_rows(3, 5, 4.0), 3)
}

// One row, with its residual.
fn one_row(settings: Settings) -> Result<Learned, Refusal> {
    let mut props = [0i32; 24];
    let mut tok = [0u8; 14];
    let mut res = [0i32; 1];
    let mut counts = filled::<u32, 16384>(0);
    let mut rows = Rows {
        props: &mut props,
        tok: &mut tok,
        res: &mut res,
    };
    let logs = [0.0f32; 2];
    learn_one_leaf(
        &mut rows,
        &mut counts,
        Job {
            settings,
            logs: &logs,
        },
    )
}

// Six rows of zeros over these tokens and logarithms.
fn six(tok: &mut [u8], logs: &[f32]) -> Result<Learned, Refusal> {
    let mut props = filled::<i32, 144>(0);
    let mut res = [0i32; 0];
    let mut counts = filled::<u32, 5504>(0);
    let mut rows = Rows {
        props: &mut props,
        tok,
        res: &mut res,
    };
    let job = Job {
        settings: settings(17, 1, 65535, false),
        logs,
    };
    learn_one_leaf(&mut rows, &mut counts, job)
}

fn short_tokens() -> Result<Learned, Refusal> {
    let mut tok = filled::<u8, 83>(0);
    six(&mut tok, &filled::<f32, 7>(0.0))
}

fn odd_token() -> Result<Learned, Refusal> {
    let mut tok = rooms::odd_tokens();
    six(&mut tok, &filled::<f32, 7>(0.0))
}

fn short_logs() -> Result<Learned, Refusal> {
    let mut tok = filled::<u8, 84>(0);
    six(&mut tok, &filled::<f32, 6>(0.0))
}

// Alphabet 127 with modal offsets and residuals gives 5, 128 passes; each other number once, with its place.
fn refusals() -> Tally {
    let short = one_row(settings(127, 1, 65535, true));
    let enough = one_row(settings(128, 1, 65535, true));
    let no_alphabet = one_row(settings(0, 1, 65535, false));
    let none_allowed = one_row(settings(1, 1, 49152, false));
    let two_leaves = one_row(settings(1, 2, 65535, false));
    Tally::none()
        .with(is_refused(short, 5, 0), 127)
        .with(is_grown(enough, 1, 1, 0.0, 0.0), 128)
        .with(is_refused(no_alphabet, 1, 0), 1)
        .with(is_refused(none_allowed, 2, 0), 2)
        .with(is_refused(short_tokens(), 3, 0), 3)
        .with(is_refused(odd_token(), 4, 2), 4)
        .with(is_refused(short_logs(), 6, 0), 6)
        .with(is_refused(two_leaves, 7, 0), 7)
}

fn main(rt: HostRuntime) -> io::Result<()> {
    report(&rt, b"rows", row_limit(rt.alloc())?)?;
    report(&rt, b"refusals", refusals())?;
    report(&rt, b"growth", growth())?;
    report(&rt, b"larger first", larger_first())
}
