// The nodes of a tree in preorder: from the root, gt first. `splits` says which nodes are splits still.
#![tactic(auto)]

ghost use Rattle.std.specs.Prelude.{◌≡◌, ◌+◌, ◌≤◌, true, List, length};
ghost use Rattle.model.specs.Settings.{max_nodes};
ghost use Rattle.model.specs.Tree.{Node};
ghost use Rattle.preorder.specs.Order.{pushed, ShowsNodes, Walkable, Ordered};

use arrayvec::ArrayVec;
use layout::MaNode;

// Numbers of nodes, of each node at most one.
pub type Numbers = ArrayVec<u32, { layout::MAX_NODES }>;

// The children of a node, if it is a split still, go onto the stack, gt on top.
fn push_children(node: &MaNode, kept: bool, stack: &mut Numbers)
    requires { kept ≡ true → length stack.old.items + 2 ≤ max_nodes }
    ensures { stack.new.items ≡ pushed kept node.now.gt node.now.le stack.old.items }
{
    if kept {
        let MaNode { gt, le, .. } = *node;
        stack.push(le);
        stack.push(gt);
    }
}

// The nodes in preorder from the root, gt first, and the place of each. The list for them is lent, since one that goes
// out by value is copied whole on the way.
pub fn order_nodes(tree: &[MaNode], splits: &[bool], places: &mut [u32], order: &mut Numbers)
    requires { Walkable tree.now splits.now places.old }
    ensures { (nodes : List Node) → ShowsNodes nodes tree.now splits.now
        → Ordered nodes order.new.items places.new }
{
    order.clear();
    let mut stack = ArrayVec::new();
    stack.push(0);
    while let Some(node) = stack.pop() {
        let i = node as usize;
        places[i] = order.len() as u32;
        order.push(node);
        push_children(&tree[i], splits[i], &mut stack);
    }
}
