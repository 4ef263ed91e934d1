// A tree as the symbols by which ISO/IEC 18181-1 transmits it (document 02, c; the Rust's `emit_learned_tree`): the
// refusals in their order, and each node's symbols along the breadth-first order, which is written into the queue.
#![tactic(auto)]

ghost use Rattle.std.specs.Prelude.{◌≡◌, ◌<◌, length, map};
ghost use Rattle.model.specs.Settings.{props_per_row};
ghost use Rattle.model.specs.Standard.{symbol, decision_symbols, leaf_symbols};
ghost use Rattle.model.specs.Pack.{packed};
ghost use Rattle.model.specs.Symbols.{symbols_of};
ghost use Rattle.model.specs.Operations.{write_symbols};
ghost use Rattle.layout.specs.Records.{stored_of};
ghost use Rattle.tree.specs.Trees.{records_in, IsSound};
ghost use Rattle.symbol_writer.specs.Writing.{Room, Wrote, node_symbols, Puttable, Writable};
ghost use Rattle.symbol_writer.specs.Answers.{symbols_after};

use layout::MaNode;
use model::{LEAF_SYMBOLS, Refusal, SPLIT_SYMBOLS, Symbol};

fn symbol(context: u32, value: u32) -> Symbol
    ensures { result ≡ symbol context value }
{
    Symbol { context, value }
}

// A split's property, one higher since 0 in its place says that a node is a leaf, and its value.
fn split_symbols(node: &MaNode) -> [Symbol; SPLIT_SYMBOLS]
    requires { node.now.prop < props_per_row }
    ensures { result ≡ decision_symbols node.now.prop (packed node.now.val) }
{
    let value = entropy::pack_signed(node.val);
    [
        symbol(model::PROPERTY_CONTEXT, node.prop + 1),
        symbol(model::SPLIT_VAL_CONTEXT, value),
    ]
}

// 0 in a property's place, a leaf's predictor and its offset. The last two say its multiplier, which is always 1.
fn leaf_symbols(node: &MaNode) -> [Symbol; LEAF_SYMBOLS]
    ensures { result ≡ leaf_symbols node.now.info.pred (packed node.now.info.offset) 0 0 }
{
    let offset = entropy::pack_signed(node.info.offset);
    [
        symbol(model::PROPERTY_CONTEXT, 0),
        symbol(model::PREDICTOR_CONTEXT, node.info.pred),
        symbol(model::OFFSET_CONTEXT, offset),
        symbol(model::MULTIPLIER_LOG_CONTEXT, 0),
        symbol(model::MULTIPLIER_BITS_CONTEXT, 0),
    ]
}

// Symbols into a list, from place `at` on; the answer is the place behind them.
fn put(out: &mut [Symbol], at: usize, symbols: &[Symbol]) -> usize
    requires { Room out.old at symbols.now }
    ensures { Wrote out.old at symbols.now out.new result }
{
    let end = at + symbols.len();
    out[at..end].copy_from_slice(symbols);
    end
}

// A node's symbols, likewise.
fn put_node(out: &mut [Symbol], at: usize, node: &MaNode) -> usize
    requires { Puttable out.old at node.now }
    ensures { Wrote out.old at (node_symbols node.now) out.new result }
{
    if node.is_split() {
        return put(out, at, &split_symbols(node));
    }
    put(out, at, &leaf_symbols(node))
}

// The symbols of a sound tree. The order is room for the walk: what it holds afterwards is not said.
fn write_tree(tree: &[MaNode], symbols: &mut [Symbol], order: &mut [u32])
    requires { Writable tree.now symbols.old order.old }
    ensures { symbols.new ≡ symbols_of (records_in tree.now) }
{
    breadth::breadth_order(tree, order);
    let mut at = 0;
    for i in order.iter() {
        at = put_node(symbols, at, &tree[*i as usize]);
    }
}

// How many symbols a sound tree has, which has one leaf more than splits.
fn symbol_count(tree: &[MaNode]) -> usize
    requires { IsSound tree.now }
    ensures { result ≡ length (symbols_of (records_in tree.now)) }
{
    let leaves = layout::leaves_of(tree.len());
    SPLIT_SYMBOLS * (leaves - 1) + LEAF_SYMBOLS * leaves
}

// The tree as symbols, and how many there are. The queue is room for the walk, and holds zeros afterwards.
pub fn write_symbols(
    nodes: &[MaNode],
    symbols: &mut [Symbol],
    queue: &mut [u32],
    count: u32,
) -> Result<u32, Refusal>
    ensures { symbols_after result symbols.new queue.new
        ≡ write_symbols (map stored_of nodes.now) count
        (record { symbols = symbols.old; queue = queue.old }) }
{
    let n = count as usize;
    if let Some(node) = tree::fault_in(nodes, n) {
        return Err(Refusal::UnsoundTree(node));
    }
    let tree = &nodes[..n];
    let wanted = symbol_count(tree);
    if (symbols.len() < wanted) | (queue.len() < n) {
        return Err(Refusal::ShortOfRoom);
    }
    write_tree(tree, &mut symbols[..wanted], &mut queue[..n]);
    queue.fill(0);
    Ok(wanted as u32)
}
