// The public interface, for C, Rust and Rattle: each operation of document 01, with nodes and spans as lent
// slices of records. Whatever is handed in, the answer is document 01's, and a refusal changes no list. Crate
// `ma_tree_c` exports each for C and Rust, by the same name and with the same clauses.
//
// Each function hands what it is lent to the crate that answers, and makes the answer a struct for C.
#![tactic(auto)]

ghost use Rattle.std.specs.Prelude.{◌≡◌, map};
ghost use Rattle.model.specs.Pack.{packed};
ghost use Rattle.model.specs.Token.{encoded_of};
ghost use Rattle.model.specs.Operations.{lookup, token_answer};
ghost use Rattle.layout.specs.Records.{stored_of};
ghost use Rattle.answers.specs.Answers.{value_in, found_in};
ghost use Rattle.border.specs.Lists.{contexts_now};
ghost use Rattle.ma_tree.specs.Runs.{records_now, symbol_lists, Learning, Deepening, Numbering};
ghost use Rattle.ma_tree.specs.Runs.{WritingSymbols, ReadingSymbols, Sampling};

use answers::{Count, FoundLeaf, LearnedTree, Read};
use layout::{MaNode, Nodes, Span};
use lent::Lists;
use model::{Encoded, Symbol};
use queue::Queue;
use refuse::{Job, Settings};
use rows::Rows;

// ---- packing, tokens, even sampling

pub fn ostrovuc_pack_signed(value: i32) -> u32
    ensures { result ≡ packed value }
{
    entropy::pack_signed(value)
}

pub fn ostrovuc_uint_encode(value: u32) -> Encoded
    ensures { result ≡ encoded_of value }
{
    entropy::uint_encode(value)
}

pub fn ostrovuc_token_value(token: u32, extra: u32) -> Read
    ensures { result ≡ value_in (token_answer token extra) }
{
    Read::from(entropy::token_value(token, extra))
}

pub fn ostrovuc_evenly_sampled_indices(rows: usize, target: usize, out: &mut [u32]) -> Count
    ensures { Sampling rows target out.old result out.new }
{
    Count::from(sampling::evenly_sampled_indices(rows, target, out))
}

// ---- learning and deepening

// Learns a tree from the rows into the node list.
// Stays: the C interface lends its lists one by one, and the clause hands on what it lends, list for list.
pub fn ostrovuc_learn<'n, 'a>(
    nodes: &'n mut [MaNode],
    spans: &'n mut [Span],
    s: Settings,
    logs: &'a [f32],
    props: &'a mut [i32],
    tok: &'a mut [u8],
    res: &'a mut [i32],
    queue_words: &'a mut [u32],
    queue_values: &'a mut [i32],
    queue_gains: &'a mut [f32],
    counts: &'a mut [u32],
) -> LearnedTree
    ensures { let x = records_now nodes.entry spans.entry props.entry tok.entry res.entry
        queue_words.entry queue_values.entry queue_gains.entry counts.entry in
        let y = records_now nodes.exit spans.exit props.exit tok.exit res.exit
        queue_words.exit queue_values.exit queue_gains.exit counts.exit in
        Learning s logs.now x result y }
{
    let mut rows = Rows { props, tok, res };
    let mut at = Nodes { nodes, spans };
    let mut queue = Queue {
        words: queue_words,
        values: queue_values,
        gains: queue_gains,
        waiting: 0,
    };
    let mut lists = Lists {
        rows: &mut rows,
        at: &mut at,
        queue: &mut queue,
        counts,
    };
    let job = Job { settings: s, logs };
    LearnedTree::from(border::learn_on(&mut lists, job))
}

// Deepens the tree of the first `count` nodes.
// Stays: the C interface lends its lists one by one, and the clause hands on what it lends, list for list. They are
// put together here as in learning, since a helper could not answer `lists`, which refers to locals of its function.
pub fn ostrovuc_deepen<'n, 'a>(
    nodes: &'n mut [MaNode],
    spans: &'n mut [Span],
    s: Settings,
    count: u32,
    logs: &'a [f32],
    props: &'a mut [i32],
    tok: &'a mut [u8],
    res: &'a mut [i32],
    queue_words: &'a mut [u32],
    queue_values: &'a mut [i32],
    queue_gains: &'a mut [f32],
    counts: &'a mut [u32],
) -> LearnedTree
    ensures { let x = records_now nodes.entry spans.entry props.entry tok.entry res.entry
        queue_words.entry queue_values.entry queue_gains.entry counts.entry in
        let y = records_now nodes.exit spans.exit props.exit tok.exit res.exit
        queue_words.exit queue_values.exit queue_gains.exit counts.exit in
        Deepening s logs.now count x result y }
{
    let mut rows = Rows { props, tok, res };
    let mut at = Nodes { nodes, spans };
    let mut queue = Queue {
        words: queue_words,
        values: queue_values,
        gains: queue_gains,
        waiting: 0,
    };
    let mut lists = Lists {
        rows: &mut rows,
        at: &mut at,
        queue: &mut queue,
        counts,
    };
    let job = Job { settings: s, logs };
    LearnedTree::from(border::deepen_on(&mut lists, job, count))
}

// ---- lookup and contexts

// The leaf that 24 properties lead to in the tree of the first `count` nodes. Only the nodes met on the way are
// looked at.
pub fn ostrovuc_lookup<'n, 'a>(nodes: &'n [MaNode], count: u32, props: &'a [i32]) -> FoundLeaf
    ensures { result ≡ found_in (lookup (map stored_of nodes.now) count props.now) }
{
    FoundLeaf::from(lookup::lookup(nodes, count, props))
}

// The context of each leaf of the tree of the first `count` nodes, and how many there are. The queue is room
// for the walk, and holds zeros afterwards.
pub fn ostrovuc_leaf_contexts<'n, 'a>(
    nodes: &'n [MaNode],
    count: u32,
    contexts: &'a mut [u32],
    queue: &'a mut [u32],
) -> Count
    ensures { Numbering nodes.now count
        (contexts_now contexts.entry queue.entry) result (contexts_now contexts.exit queue.exit) }
{
    Count::from(contexts::leaf_contexts(nodes, contexts, queue, count))
}

// ---- a tree as JPEG XL symbols

// The tree of the first `count` nodes as ISO/IEC 18181-1 transmits it, and how many symbols that takes. The queue is
// room for the walk, and holds zeros afterwards.
pub fn ostrovuc_write_symbols(
    nodes: &[MaNode],
    count: u32,
    symbols: &mut [Symbol],
    queue: &mut [u32],
) -> Count
    ensures { WritingSymbols nodes.now count (symbol_lists symbols.old queue.old) result
        (symbol_lists symbols.new queue.new) }
{
    Count::from(symbol_writer::write_symbols(nodes, symbols, queue, count))
}

// The tree that symbols are, its nodes numbered breadth first, and how many these are.
pub fn ostrovuc_read_symbols(symbols: &[Symbol], nodes: &mut [MaNode]) -> Count
    ensures { ReadingSymbols symbols.now nodes.old result nodes.new }
{
    Count::from(symbol_reader::read_symbols(symbols, nodes))
}
