// The exports of the public interface for C and Rust: each calls the operation of crate `ma_tree` by the same name and
// states its clauses again. A slice crosses over to C as two arguments, pointer and length.
// Stays: each operation twice, since a crate is a library for Rattle or a static library for C, and not both: the
// demands (crate `promises`) cite the clauses of `ma_tree`, and the proof here holds the exports to them.
#![tactic(auto)]

ghost use Rattle.std.specs.Prelude.{◌≡◌, map};
ghost use Rattle.model.specs.Pack.{packed};
ghost use Rattle.model.specs.Token.{encoded_of};
ghost use Rattle.model.specs.Operations.{lookup, token_answer};
ghost use Rattle.layout.specs.Records.{stored_of};
ghost use Rattle.answers.specs.Answers.{value_in, found_in};
ghost use Rattle.border.specs.Lists.{contexts_now};
ghost use Rattle.ma_tree.specs.Runs.{records_now, symbol_lists, Learning, Deepening, Numbering};
ghost use Rattle.ma_tree.specs.Runs.{WritingSymbols, ReadingSymbols, Sampling};

use answers::{Count, FoundLeaf, LearnedTree, Read};
use layout::{MaNode, Span};
use model::{Encoded, Symbol};
use refuse::Settings;

#[unsafe(no_mangle)]
pub extern "C" fn ostrovuc_pack_signed(value: i32) -> u32
    ensures { result ≡ packed value }
{
    ma_tree::ostrovuc_pack_signed(value)
}

#[unsafe(no_mangle)]
pub extern "C" fn ostrovuc_uint_encode(value: u32) -> Encoded
    ensures { result ≡ encoded_of value }
{
    ma_tree::ostrovuc_uint_encode(value)
}

#[unsafe(no_mangle)]
pub extern "C" fn ostrovuc_token_value(token: u32, extra: u32) -> Read
    ensures { result ≡ value_in (token_answer token extra) }
{
    ma_tree::ostrovuc_token_value(token, extra)
}

#[unsafe(no_mangle)]
pub extern "C" fn ostrovuc_evenly_sampled_indices(
    rows: usize,
    target: usize,
    out: &mut [u32],
) -> Count
    ensures { Sampling rows target out.old result out.new }
{
    ma_tree::ostrovuc_evenly_sampled_indices(rows, target, out)
}

// Learns a tree from the rows into the node list.
// Stays: the C interface lends its lists one by one.
#[unsafe(no_mangle)]
pub extern "C" fn ostrovuc_learn<'n, 'a>(
    nodes: &'n mut [MaNode],
    spans: &'n mut [Span],
    s: Settings,
    logs: &'a [f32],
    props: &'a mut [i32],
    tok: &'a mut [u8],
    res: &'a mut [i32],
    queue_words: &'a mut [u32],
    queue_values: &'a mut [i32],
    queue_gains: &'a mut [f32],
    counts: &'a mut [u32],
) -> LearnedTree
    ensures { let x = records_now nodes.entry spans.entry props.entry tok.entry res.entry
        queue_words.entry queue_values.entry queue_gains.entry counts.entry in
        let y = records_now nodes.exit spans.exit props.exit tok.exit res.exit
        queue_words.exit queue_values.exit queue_gains.exit counts.exit in
        Learning s logs.now x result y }
{
    ma_tree::ostrovuc_learn(
        nodes,
        spans,
        s,
        logs,
        props,
        tok,
        res,
        queue_words,
        queue_values,
        queue_gains,
        counts,
    )
}

// Deepens the tree of the first `count` nodes.
// Stays: the C interface lends its lists one by one.
#[unsafe(no_mangle)]
pub extern "C" fn ostrovuc_deepen<'n, 'a>(
    nodes: &'n mut [MaNode],
    spans: &'n mut [Span],
    s: Settings,
    count: u32,
    logs: &'a [f32],
    props: &'a mut [i32],
    tok: &'a mut [u8],
    res: &'a mut [i32],
    queue_words: &'a mut [u32],
    queue_values: &'a mut [i32],
    queue_gains: &'a mut [f32],
    counts: &'a mut [u32],
) -> LearnedTree
    ensures { let x = records_now nodes.entry spans.entry props.entry tok.entry res.entry
        queue_words.entry queue_values.entry queue_gains.entry counts.entry in
        let y = records_now nodes.exit spans.exit props.exit tok.exit res.exit
        queue_words.exit queue_values.exit queue_gains.exit counts.exit in
        Deepening s logs.now count x result y }
{
    ma_tree::ostrovuc_deepen(
        nodes,
        spans,
        s,
        count,
        logs,
        props,
        tok,
        res,
        queue_words,
        queue_values,
        queue_gains,
        counts,
    )
}

// The leaf that 24 properties lead to in the tree of the first `count` nodes. Only the nodes met on the way are
// looked at.
#[unsafe(no_mangle)]
pub extern "C" fn ostrovuc_lookup<'n, 'a>(
    nodes: &'n [MaNode],
    count: u32,
    props: &'a [i32],
) -> FoundLeaf
    ensures { result ≡ found_in (lookup (map stored_of nodes.now) count props.now) }
{
    ma_tree::ostrovuc_lookup(nodes, count, props)
}

// The context of each leaf of the tree of the first `count` nodes, and how many there are. The queue is room
// for the walk, and holds zeros afterwards.
#[unsafe(no_mangle)]
pub extern "C" fn ostrovuc_leaf_contexts<'n, 'a>(
    nodes: &'n [MaNode],
    count: u32,
    contexts: &'a mut [u32],
    queue: &'a mut [u32],
) -> Count
    ensures { Numbering nodes.now count
        (contexts_now contexts.entry queue.entry) result (contexts_now contexts.exit queue.exit) }
{
    ma_tree::ostrovuc_leaf_contexts(nodes, count, contexts, queue)
}

// The tree of the first `count` nodes as ISO/IEC 18181-1 transmits it, and how many symbols that takes. The queue is
// room for the walk, and holds zeros afterwards.
#[unsafe(no_mangle)]
pub extern "C" fn ostrovuc_write_symbols(
    nodes: &[MaNode],
    count: u32,
    symbols: &mut [Symbol],
    queue: &mut [u32],
) -> Count
    ensures { WritingSymbols nodes.now count (symbol_lists symbols.old queue.old) result
        (symbol_lists symbols.new queue.new) }
{
    ma_tree::ostrovuc_write_symbols(nodes, count, symbols, queue)
}

// The tree that symbols are, its nodes numbered breadth first, and how many these are.
#[unsafe(no_mangle)]
pub extern "C" fn ostrovuc_read_symbols(symbols: &[Symbol], nodes: &mut [MaNode]) -> Count
    ensures { ReadingSymbols symbols.now nodes.old result nodes.new }
{
    ma_tree::ostrovuc_read_symbols(symbols, nodes)
}
