// A tree read from its symbols (document 02, c), as ISO/IEC 18181-1 has a decoder read it. The symbols are gone over
// twice: first to see that they are a tree and how many nodes it has, so that a refusal changes nothing, then to write
// the nodes.
#![tactic(auto)]

ghost use Rattle.std.specs.Prelude.{◌≡◌, ◌≢◌, ◌≤◌, length, map};
ghost use Rattle.std.proofs.Math.Option.{some};
ghost use Rattle.model.specs.Settings.{max_nodes};
ghost use Rattle.model.specs.Symbols.{no_node, first_node, is_zero_in, tree_read};
ghost use Rattle.model.specs.Operations.{read_symbols};
ghost use Rattle.model.specs.Answered.{option_of};
ghost use Rattle.layout.specs.Records.{stored_of};
ghost use Rattle.symbol_reader.specs.Nodes.{is_leaf, is_split, node_read, count_of, records_read};
ghost use Rattle.symbol_reader.specs.Answers.{nodes_after};

use layout::{MaNode, NodeInfo, NodeNumber};
use model::{LEAF_SYMBOLS, Refusal, SPLIT_SYMBOLS, Symbol};

// Some symbols must be 0: that which a leaf has in a property's place, and both that tell a multiplier, which is 1.
fn is_zero_in(symbol: &Symbol, context: u32) -> bool
    ensures { result ≡ is_zero_in context symbol.now }
{
    (symbol.context == context) & (symbol.value == 0)
}

// Whether a leaf comes next.
fn is_leaf(symbols: &[Symbol]) -> bool
    ensures { result ≡ is_leaf (first_node symbols.now) }
{
    let [property, predictor, offset, log, bits, ..] = symbols else {
        return false;
    };
    is_zero_in(property, model::PROPERTY_CONTEXT)
        & (predictor.context == model::PREDICTOR_CONTEXT)
        & ((predictor.value as usize) < model::NUM_MA_PREDS)
        & (offset.context == model::OFFSET_CONTEXT)
        & is_zero_in(log, model::MULTIPLIER_LOG_CONTEXT)
        & is_zero_in(bits, model::MULTIPLIER_BITS_CONTEXT)
}

// Whether a split comes next.
fn is_split(symbols: &[Symbol]) -> bool
    ensures { result ≡ is_split (first_node symbols.now) }
{
    let [property, value, ..] = symbols else {
        return false;
    };
    (property.context == model::PROPERTY_CONTEXT)
        & (property.value != 0)
        & ((property.value as usize) <= model::NUM_MA_PROPS)
        & (value.context == model::SPLIT_VAL_CONTEXT)
}

// The node that comes next, with the record of a seed's node without rows at this depth. A split's children are the
// nodes gt and gt + 1. Since a node does come next, nothing but the 0 of a leaf is tested.
fn read_node(symbols: &[Symbol], gt: NodeNumber, depth: u32) -> MaNode
    requires node { first_node symbols.now ≢ no_node }
    requires number { gt.0 ≤ max_nodes }
    ensures { result ≡ node_read gt.0 depth (first_node symbols.now) }
{
    let property = symbols[0].value;
    if property == 0 {
        let info = NodeInfo {
            cost: 0.0,
            pred: symbols[1].value,
            offset: entropy::unpack_signed(symbols[2].value),
        };
        return MaNode::leaf(info, depth);
    }
    let split = MaNode {
        kind: 1,
        prop: property - 1,
        val: entropy::unpack_signed(symbols[1].value),
        gt: gt.0,
        le: gt.0 + 1,
        info: NodeInfo::default(),
        depth,
    };
    split.kept()
}

// How many nodes the tree has that the symbols are; none if they are no tree, or one of too many nodes. A split makes
// two nodes more due, so it is none as soon as these are too many.
fn count_nodes(symbols: &[Symbol]) -> Option<u32>
    ensures { option_of result ≡ count_of (tree_read symbols.now) }
{
    let mut rest = symbols;
    let mut due = 1;
    let mut nodes = 0;
    // Stays: whether one more node is due, and how many symbols it is, is known only once this one is read, which no
    // iterator says plainer.
    while nodes < due {
        if is_leaf(rest) {
            rest = &rest[LEAF_SYMBOLS..];
        } else if is_split(rest) & (due as usize + 2 <= layout::MAX_NODES) {
            rest = &rest[SPLIT_SYMBOLS..];
            due += 2;
        } else {
            return None;
        }
        nodes += 1;
    }
    if rest.is_empty() { Some(nodes) } else { None }
}

// The nodes of the tree that the symbols are, each with its depth (document 02, d). A split's children get the next
// numbers behind all nodes that are due, so the nodes of one depth come one after the other, and where they end, all
// that are due lie one deeper.
fn write_nodes(symbols: &[Symbol], nodes: &mut [MaNode])
    requires { count_of (tree_read symbols.now) ≡ some (length nodes.old) }
    ensures { nodes.new ≡ records_read symbols.now }
{
    let mut rest = symbols;
    let mut due = 1;
    let mut depth = 0;
    let mut level_end = 1;
    for (i, node) in nodes.iter_mut().enumerate() {
        if i == level_end as usize {
            depth += 1;
            level_end = due;
        }
        *node = read_node(rest, NodeNumber(due), depth);
        if node.is_split() {
            rest = &rest[SPLIT_SYMBOLS..];
            due += 2;
        } else {
            rest = &rest[LEAF_SYMBOLS..];
        }
    }
}

// The tree that the symbols are, at the front of the node list; how many nodes it has.
pub fn read_symbols(symbols: &[Symbol], nodes: &mut [MaNode]) -> Result<u32, Refusal>
    ensures { nodes_after result nodes.new
        ≡ read_symbols symbols.now (map stored_of nodes.old) }
{
    let Some(count) = count_nodes(symbols) else {
        return Err(Refusal::BadSymbols);
    };
    let n = count as usize;
    if nodes.len() < n {
        return Err(Refusal::ShortOfRoom);
    }
    write_nodes(symbols, &mut nodes[..n]);
    Ok(count)
}
