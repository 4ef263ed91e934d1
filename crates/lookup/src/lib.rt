// A lookup (document 01, "Lookup"): from the root to the leaf that 24 properties lead to. Only the nodes met on the way
// are looked at.
#![tactic(auto)]

ghost use Rattle.std.specs.Prelude.{◌≡◌, true, false, map};
ghost use Rattle.model.specs.Operations.{lookup};
ghost use Rattle.layout.specs.Records.{stored_of};
ghost use Rattle.lookup.specs.Ways.{is_split, begun, followed, ended, found_outcome, OneRow};

use layout::{MaNode, NodeNumber};
use model::Refusal;

// The leaf that a lookup ends at, and its predictor.
#[derive(Clone, Copy)]
pub struct Found {
    pub leaf: u32,
    pub pred: u32,
}

// Before the first node: 24 properties, and a tree that the list holds. The root is where the way begins.
fn begin(room: usize, count: u32, props: &[i32]) -> Result<NodeNumber, Refusal>
    ensures { result ≡ begun room count props.now }
{
    if props.len() != model::NUM_MA_PROPS {
        return Err(Refusal::UnevenProperties);
    }
    if (count == 0) | (room < count as usize) {
        return Err(Refusal::UnsoundTree(0));
    }
    Ok(NodeNumber(0))
}

// From a split: a property above the value leads to gt, else to le. Both children must stand behind it and below the
// count.
// Stays: the tests and the step of `tree` written out. Called, a lookup in a small tree takes a tenth longer.
fn follow(m: &MaNode, node: NodeNumber, count: u32, props: &[i32]) -> Result<NodeNumber, Refusal>
    requires m_value { is_split m.now ≡ true }
    requires one_row { OneRow props.now }
    ensures { result ≡ followed m.now node.0 count props.now }
{
    let i = node.0;
    let prop = m.prop as usize;
    let gt = m.gt;
    let le = m.le;
    if !((prop < model::NUM_MA_PROPS) & (((i < gt) & (i < le)) & ((gt < count) & (le < count)))) {
        return Err(Refusal::UnsoundTree(i));
    }
    if m.val < props[prop] {
        return Ok(NodeNumber(gt));
    }
    Ok(NodeNumber(le))
}

// From a leaf: the way ends, with an answer if the predictor is one.
fn end_at(m: &MaNode, node: NodeNumber) -> Result<Found, Refusal>
    ensures { result ≡ ended m.now node.0 }
{
    let pred = m.info.pred;
    if model::NUM_MA_PREDS <= pred as usize {
        return Err(Refusal::UnsoundTree(node.0));
    }
    Ok(Found { leaf: node.0, pred })
}

// The leaf that the properties lead to in the tree of the first `count` nodes.
pub fn lookup(nodes: &[MaNode], count: u32, props: &[i32]) -> Result<Found, Refusal>
    ensures { found_outcome result ≡ lookup (map stored_of nodes.now) count props.now }
{
    let mut node = begin(nodes.len(), count, props)?;
    // Stays: the next node is known only once this one is read, which no iterator says plainer.
    while nodes[node.0 as usize].is_split() {
        node = follow(&nodes[node.0 as usize], node, count, props)?;
    }
    end_at(&nodes[node.0 as usize], node)
}
