// The contexts of a tree's leaves, breadth first (document 01, "Contexts"): the refusals in their order, and the
// leaves numbered along the order of the nodes, which is written into the lent queue.
#![tactic(auto)]

ghost use Rattle.std.specs.Prelude.{◌≡◌, map};
ghost use Rattle.model.specs.Tree.{nodes_of};
ghost use Rattle.model.specs.Learn.{leaf_count};
ghost use Rattle.model.specs.Contexts.{contexts_of};
ghost use Rattle.model.specs.Operations.{leaf_contexts};
ghost use Rattle.layout.specs.Records.{stored_of, node_is};
ghost use Rattle.tree.specs.Trees.{records_in};
ghost use Rattle.contexts.specs.Numbering.{numbering, given, Giveable, Numerable};
ghost use Rattle.contexts.specs.Answers.{contexts_after};

use layout::{MaNode, NodeNumber};
use model::Refusal;

// What a split has in place of a context.
// Stays: a number and no Option, since the C interface lends the contexts as a list of numbers.
const NO_CONTEXT: u32 = 4294967295;

// A leaf's context: a type apart from a node's number, so that a context never indexes the node list.
#[derive(Clone, Copy, PartialEq, Eq, Debug)]
pub struct LeafContext(pub u32);

// A leaf is given the next context, a split none; what comes next.
fn give_context(
    node: &MaNode,
    number: NodeNumber,
    next: LeafContext,
    contexts: &mut [u32],
) -> LeafContext
    requires { Giveable number.0 next.0 contexts.old }
    ensures { numbering result.0 contexts.new
        ≡ given (node_is node.now) number.0 (numbering next.0 contexts.old) }
{
    if node.is_split() {
        return next;
    }
    contexts[number.0 as usize] = next.0;
    LeafContext(next.0 + 1)
}

// The contexts of a sound tree's leaves, breadth first; a split has none. The queue is room for the nodes in order.
fn number_leaves(tree: &[MaNode], contexts: &mut [u32], queue: &mut [u32]) -> u32
    requires { Numerable tree.now contexts.old queue.old }
    ensures { (result ≡ leaf_count (nodes_of (records_in tree.now)))
        × (contexts.new ≡ contexts_of (nodes_of (records_in tree.now))) }
{
    contexts.fill(NO_CONTEXT);
    breadth::breadth_order(tree, queue);
    // Stays: counted by hand, since how many were given is the answer, and no `enumerate` says that after its loop.
    let mut next = LeafContext(0);
    for i in queue.iter() {
        next = give_context(&tree[*i as usize], NodeNumber(*i), next, contexts);
    }
    next.0
}

// The context of each leaf, and how many there are. The queue is room for the walk, and holds zeros afterwards.
pub fn leaf_contexts(
    nodes: &[MaNode],
    contexts: &mut [u32],
    queue: &mut [u32],
    count: u32,
) -> Result<u32, Refusal>
    ensures { contexts_after result contexts.new queue.new
        ≡ leaf_contexts (map stored_of nodes.now) count
        (record { contexts = contexts.old; queue = queue.old }) }
{
    let n = count as usize;
    if let Some(node) = tree::fault_in(nodes, n) {
        return Err(Refusal::UnsoundTree(node));
    }
    if (contexts.len() < n) | (queue.len() < n) {
        return Err(Refusal::ShortOfRoom);
    }
    let leaves = number_leaves(&nodes[..n], &mut contexts[..n], &mut queue[..n]);
    queue.fill(0);
    Ok(leaves)
}
